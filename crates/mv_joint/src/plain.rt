ghost use Rattle.std.specs.Prelude.{◌≡◌, ◌<◌, ◌≤◌, ◌∷◌, [], false, length, map, nat_eq, IfOk, IfErr, OnOk, All};
ghost use Rattle.std.specs.List.{list_any};
ghost use Rattle.indexmap.specs.IndexSet.{insert_all};
ghost use Rattle.mv_base.specs.Set.{one};
ghost use Rattle.mv_base.specs.declared.limits.TheConstants.{MAX_JOINT_ROWS, MAX_VALUES};
ghost use Rattle.mv_design.specs.declared.table.Entry.{Entry};
ghost use Rattle.mv_design.specs.declared.table.Entry.TheVariants.{Set};
ghost use Rattle.mv_rows.specs.Cubes.{AreColumns, IsFrame};
ghost use Rattle.mv_rows.specs.Lines.{FitEntry};
ghost use Rattle.mv_rows.specs.Flat.{says_nothing, with_mark, marked_sets};
ghost use Rattle.mv_joint.specs.OutRows.{same_outs};
ghost use Rattle.mv_joint.specs.Split.{all_rows};
ghost use Rattle.mv_joint.specs.Plain.{IsJointFile, said, set_of};
ghost use Rattle.mv_joint.specs.Plain.{with_any_mark, unmarked, marked, plain_of};
ghost use Rattle.mv_joint.specs.Joint.{given, StopsBy, StopsWith};
ghost use Rattle.mv_joint.specs.Gather.{IsGathered, StopsRows, AreChoices};

use crate::gather::{Gathered, add_outs};
use crate::joint::JointStop;
use crate::marked::{needs_mark, some_empty, stays};
use crate::out_row::OutRow;
use crate::split::{PlainRow, put_rows};
use indexmap::IndexSet;
use mv_base::{Items, MAX_JOINT_ROWS, Memory, NetId, PackedSet, Value, ValueSet};
use mv_design::{Entry, FileTable};
use mv_rows::{Column, Frame};
use std::alloc::Global;

/// A table of several outputs without `=`, but for its mark: each of its rows matches something and says some values of each
/// output. With its distinct rows of outputs in order of first appearance, the default's last.
#[derive(Drop)]
pub struct SplitTable {
    pub columns: Items<Column>,
    pub rows: Items<PlainRow>,
    pub default: Option<OutRow>,
    pub choices: IndexSet<OutRow>,
}

/// The table without `=`. A row whose entries name columns becomes one for each choice of their values. A default with an
/// empty entry goes, and one beside a row that matches everything. One that names a column, or beside a row that says nothing
/// of some output, becomes rows that have the mark at 1, which is the net of no column. Rows that match nothing, or say nothing of some output, go. There is
/// no such table where more than `MAX_JOINT_ROWS` distinct rows of outputs are met on the way.
pub fn plain_table(
    alloc: Global,
    columns: &[Column],
    table: &FileTable,
    mark: NetId,
) -> Result<SplitTable, JointStop>
    requires columns { AreColumns columns.now }
    requires with_mark { AreColumns (with_mark columns.now mark) }
    requires unread { list_any (λ c. nat_eq c.net.0 mark.0) columns.now ≡ false }
    requires table { IsJointFile columns.now table.now }
    ensures found { IfOk result (λ found. AreChoices (plain_of columns.now table.now mark) found) }
    ensures few { IfOk result (λ found. length found.choices.keys ≤ MAX_JOINT_ROWS) }
    ensures stop { IfErr result (λ stop. StopsBy columns.now table.now mark stop) }
{
    let frame = Frame::new(alloc, columns)?;
    let Some(entries) = &table.default else {
        return unmarked(alloc, &frame, table, None);
    };
    let entries = entries.as_slice();
    if !stays(alloc, &frame, table, entries)? {
        return unmarked(alloc, &frame, table, None);
    }
    if needs_mark(alloc, &frame, table, entries)? {
        return marked(alloc, &frame, table, mark, entries);
    }
    let default = sets_of(alloc, entries)?;
    unmarked(alloc, &frame, table, Some(default))
}

/// Those of the rows of all rows that say some values of each output. A row that says nothing of one is not split.
fn said_rows(alloc: Global, frame: &Frame, table: &FileTable) -> Result<Gathered, JointStop>
    requires frame { IsFrame frame.now }
    requires table { IsJointFile frame.now.columns table.now }
    ensures rows { IfOk result
        (λ gathered. IsGathered (said (all_rows frame.now.columns table.now.rows)) gathered) }
    ensures few { IfOk result (λ gathered. length gathered.outs.keys ≤ MAX_JOINT_ROWS) }
    ensures stop { IfErr result
        (λ stop. StopsRows (all_rows frame.now.columns table.now.rows) stop) }
{
    let mut gathered = Gathered::new(alloc);
    for row in table.rows.as_slice() {
        let (ins, outs) = (row.ins.as_slice(), row.outs.as_slice());
        if some_empty(outs) {
            continue;
        }
        match put_rows(&mut gathered, alloc, frame, ins, outs) {
            Ok(()) => {}
            Err(stop) => return Err(stop),
        }
    }
    Ok(gathered)
}

/// The sets of these entries.
fn sets_of(alloc: Global, entries: &[Entry]) -> Result<OutRow, Memory>
    ensures { IfOk result (λ row. row ≡ map set_of entries.now) }
{
    let mut sets = Items::with_room(alloc, entries.len())?;
    for entry in entries {
        sets.push(set_of(alloc, entry)?)?;
    }
    Ok(OutRow::of(sets))
}

/// The set of an entry that is one.
fn set_of(alloc: Global, entry: &Entry) -> Result<PackedSet, Memory>
    ensures { IfOk result (λ set. set ≡ set_of entry.now) }
{
    match entry {
        Entry::Set(out) => out.copy(),
        Entry::Same(_) => PackedSet::new(alloc, ValueSet::empty()),
    }
}

/// The table without a mark, with this default.
fn unmarked(
    alloc: Global,
    frame: &Frame,
    table: &FileTable,
    default: Option<OutRow>,
) -> Result<SplitTable, JointStop>
    requires frame { IsFrame frame.now }
    requires table { IsJointFile frame.now.columns table.now }
    ensures found { IfOk result
        (λ found. AreChoices
        (unmarked frame.now.columns (all_rows frame.now.columns table.now.rows) default) found) }
    ensures few { IfOk result (λ found. length found.choices.keys ≤ MAX_JOINT_ROWS) }
    ensures stop { IfErr result
        (λ stop. StopsWith
        (unmarked frame.now.columns (all_rows frame.now.columns table.now.rows) default) stop) }
{
    let gathered = match said_rows(alloc, frame, table) {
        Ok(gathered) => gathered,
        Err(stop) => return Err(stop),
    };
    let mut choices = gathered.outs;
    add_given(&mut choices, &default)?;
    if choices.len() as u64 > MAX_JOINT_ROWS {
        return Err(JointStop::Wide);
    }
    Ok(SplitTable {
        columns: frame.columns.copy()?,
        rows: gathered.rows,
        default,
        choices,
    })
}

/// Adds the default's row of outputs, if there is a default and it is new.
fn add_given(all: &mut IndexSet<OutRow>, default: &Option<OutRow>) -> Result<(), Memory>
    ensures { OnOk result (all.new.keys ≡ insert_all same_outs all.old.keys (given default.now)) }
{
    match default {
        None => Ok(()),
        Some(outs) => add_outs(all, outs),
    }
}

/// The table with the default as rows that have the mark at 1.
fn marked(
    alloc: Global,
    frame: &Frame,
    table: &FileTable,
    mark: NetId,
    entries: &[Entry],
) -> Result<SplitTable, JointStop>
    requires frame { IsFrame frame.now }
    requires with_mark { AreColumns (with_mark frame.now.columns mark) }
    requires table { IsJointFile frame.now.columns table.now }
    requires entries { All (FitEntry frame.now.columns) entries.now }
    requires some { list_any says_nothing entries.now ≡ false }
    ensures found { IfOk result
        (λ found. AreChoices
        (marked frame.now.columns mark
        (all_rows frame.now.columns table.now.rows) entries.now) found) }
    ensures few { IfOk result (λ found. length found.choices.keys ≤ MAX_JOINT_ROWS) }
    ensures stop { IfErr result
        (λ stop. StopsWith
        (marked frame.now.columns mark
        (all_rows frame.now.columns table.now.rows) entries.now) stop) }
{
    let gathered = match said_rows(alloc, frame, table) {
        Ok(gathered) => gathered,
        Err(stop) => return Err(stop),
    };
    with_default_rows(alloc, frame.columns.as_slice(), mark, gathered, entries)
}

/// The table of these rows and of the default's, which have the mark at 1.
fn with_default_rows(
    alloc: Global,
    columns: &[Column],
    mark: NetId,
    gathered: Gathered,
    entries: &[Entry],
) -> Result<SplitTable, JointStop>
    requires columns { AreColumns columns.now }
    requires with_mark { AreColumns (with_mark columns.now mark) }
    requires gathered { IsGathered gathered.rows gathered }
    requires said { said gathered.rows ≡ gathered.rows }
    requires few { length gathered.outs.keys ≤ MAX_JOINT_ROWS }
    requires entries { All (FitEntry columns.now) entries.now }
    requires some { list_any says_nothing entries.now ≡ false }
    ensures found { IfOk result
        (λ found. AreChoices (marked columns.now mark gathered.rows entries.now) found) }
    ensures few { IfOk result (λ found. length found.choices.keys ≤ MAX_JOINT_ROWS) }
    ensures stop { IfErr result
        (λ stop. StopsWith (marked columns.now mark gathered.rows entries.now) stop) }
{
    let both = with_mark(alloc, columns, mark)?;
    let frame = Frame::new(alloc, both.as_slice())?;
    let mut gathered = Gathered {
        rows: with_any_mark(alloc, gathered.rows)?,
        outs: gathered.outs,
    };
    let sets = marked_sets(alloc, columns)?;
    match put_rows(&mut gathered, alloc, &frame, sets.as_slice(), entries) {
        Ok(()) => {}
        Err(stop) => return Err(stop),
    }
    Ok(SplitTable {
        columns: Items::of(both),
        rows: gathered.rows,
        default: None,
        choices: gathered.outs,
    })
}

/// The columns with the mark behind them.
fn with_mark(alloc: Global, columns: &[Column], mark: NetId) -> Result<Vec<Column>, Memory>
    ensures { IfOk result (λ both. both.items ≡ with_mark columns.now mark) }
{
    let mut both = Vec::from_slice(alloc, columns)?;
    both.push(Column {
        net: mark,
        count: 2,
    })?;
    Ok(both)
}

/// The sets of a row of all inputs with the mark at 1.
fn marked_sets(alloc: Global, columns: &[Column]) -> Result<Vec<PackedSet>, Memory>
    requires { AreColumns columns.now }
    ensures { IfOk result (λ sets. sets.items ≡ marked_sets columns.now) }
{
    let mut sets = Vec::with_capacity(alloc, columns.len())?;
    for column in columns {
        sets.push(PackedSet::new(alloc, ValueSet::full(column.count))?)?;
    }
    sets.push(PackedSet::new(alloc, ValueSet::one(Value(1)))?)?;
    Ok(sets)
}

/// The rows where the mark has any value.
fn with_any_mark(alloc: Global, rows: Items<PlainRow>) -> Result<Items<PlainRow>, Memory>
    ensures { IfOk result (λ all. all ≡ map with_any_mark rows) }
{
    let mut all = Items::with_room(alloc, rows.len())?;
    for row in rows.into_vec() {
        all.push(one_with_any_mark(alloc, row)?)?;
    }
    Ok(all)
}

/// The row where the mark has any value.
fn one_with_any_mark(alloc: Global, row: PlainRow) -> Result<PlainRow, Memory>
    ensures { IfOk result (λ r. r ≡ with_any_mark row) }
{
    let mut row = row;
    row.ins.push(PackedSet::new(alloc, ValueSet::full(2))?)?;
    Ok(row)
}

/// The entry of one value.
pub fn one_entry(alloc: Global, value: Value) -> Result<Entry, Memory>
    requires { value.0 < MAX_VALUES }
    ensures { IfOk result (λ entry. entry ≡ Set (one value.0)) }
{
    Ok(Entry::Set(PackedSet::new(alloc, ValueSet::one(value))?))
}
