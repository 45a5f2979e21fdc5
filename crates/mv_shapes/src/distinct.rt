//! Tables of several outputs without their equal rows.
ghost use Rattle.std.specs.Prelude.{◌≡◌, IfOk, map};
ghost use Rattle.mv_joint.specs.Plain.{set_of};
ghost use Rattle.mv_shapes.specs.Distinct.{distinct_rows, key_of, place_of, StandsFor};

use indexmap::IndexSet;
use mv_base::{Items, Memory, PackedSet, ValueSet};
use mv_design::{Entry, FileTable, Row, Rows, copy_entries, copy_sets, short_sets};
use mv_joint::OutRow;
use std::alloc::Global;
use std::hash::{Hash, Hasher};

/// A row as a key: its sets, and of each entry the set and the place of the column that it names.
#[derive(Drop)]
pub struct RowKey {
    pub ins: OutRow,
    pub sets: OutRow,
    pub places: Items<u64>,
}

impl PartialEq for RowKey {
    ghost use Rattle.mv_shapes.specs.Distinct.{key_eq, key_eq-partial_equiv};

    ghost eq = { key_eq };

    ghost laws = { key_eq-partial_equiv };

    fn eq(&self, other: &RowKey) -> bool {
        self.ins == other.ins
            && (self.sets == other.sets && self.places.as_slice() == other.places.as_slice())
    }
}

impl Eq for RowKey {
    ghost use Rattle.mv_shapes.specs.Distinct.{key_eq-equiv};

    ghost laws = { key_eq-equiv };
}

impl Hash for RowKey {
    ghost use Rattle.mv_shapes.specs.Distinct.{key_fed, key_fed-same};

    ghost hash_input = { key_fed };

    ghost respects_eq = { key_fed-same };

    fn hash<H: Hasher>(&self, state: &mut H) {
        self.ins.hash(state);
        self.sets.hash(state);
        self.places.as_slice().hash(state);
    }
}

/// A table that stands for this one. Where it has several outputs and equal rows, the first of each is left. Else it is an equal
/// table, which shares the rows.
#[tactic(auto, using(crate::proofs::Standing::stands_equal, crate::proofs::Standing::stands_distinct))]
pub fn stand_in(alloc: Global, table: &FileTable) -> Result<FileTable, Memory>
    ensures { IfOk result (λ one. StandsFor one table.now) }
{
    let mut one = table.copy()?;
    if table.outputs.len() < 2 {
        return Ok(one);
    }
    let rows = distinct_rows(alloc, table.rows.as_slice())?;
    if rows.len() == table.rows.len() {
        return Ok(one);
    }
    one.rows = Rows::of(alloc, rows)?;
    Ok(one)
}

/// The rows without those that are equal to an earlier one.
fn distinct_rows(alloc: Global, rows: &[Row]) -> Result<Items<Row>, Memory>
    ensures { IfOk result (λ list. list ≡ distinct_rows rows.now) }
{
    let mut keys = IndexSet::new(alloc);
    let mut list = Items::new(alloc);
    for row in rows {
        if !keys.insert(key_of(alloc, row)?)? {
            continue;
        }
        list.push(copy_row(alloc, row)?)?;
    }
    Ok(list)
}

/// The row as a key.
fn key_of(alloc: Global, row: &Row) -> Result<RowKey, Memory>
    ensures { IfOk result (λ key. key ≡ key_of row.now) }
{
    Ok(RowKey {
        ins: OutRow::of(copy_sets(alloc, row.ins.as_slice())?),
        sets: sets_of(alloc, row.outs.as_slice())?,
        places: places_of(alloc, row.outs.as_slice())?,
    })
}

/// The sets of the entries.
fn sets_of(alloc: Global, entries: &[Entry]) -> Result<OutRow, Memory>
    ensures { IfOk result (λ sets. sets ≡ map set_of entries.now) }
{
    let mut sets = Items::with_room(alloc, entries.len())?;
    for entry in entries {
        sets.push(set_of(alloc, entry)?)?;
    }
    Ok(OutRow::of(sets))
}

/// The set of an entry, which is empty if it names a column.
fn set_of(alloc: Global, entry: &Entry) -> Result<PackedSet, Memory>
    ensures { IfOk result (λ set. set ≡ set_of entry.now) }
{
    match entry {
        Entry::Set(out) => out.copy(),
        Entry::Same(_) => PackedSet::new(alloc, ValueSet::empty()),
    }
}

/// The places of the columns that the entries name, counted from 1.
fn places_of(alloc: Global, entries: &[Entry]) -> Result<Items<u64>, Memory>
    ensures { IfOk result (λ places. places ≡ map place_of entries.now) }
{
    let mut places = Items::with_room(alloc, entries.len())?;
    for entry in entries {
        places.push(place_of(entry))?;
    }
    Ok(places)
}

/// The place of the column that the entry names, counted from 1, and 0 for a set.
fn place_of(entry: &Entry) -> u64
    ensures { result ≡ place_of entry.now }
{
    match entry {
        Entry::Set(_) => 0,
        Entry::Same(place) => u64::from(*place) + 1,
    }
}

/// An equal row.
fn copy_row(alloc: Global, row: &Row) -> Result<Row, Memory>
    ensures { IfOk result (λ copy. copy ≡ row.now) }
{
    Ok(Row {
        ins: short_sets(alloc, row.ins.as_slice())?,
        outs: copy_entries(alloc, &row.outs)?,
    })
}
