//! A table that stands in many instances.
ghost use Rattle.std.specs.Prelude.{◌≡◌, ◌≤◌, true, false, nat_eq, All, IfErr, IfOk, IfSome};
ghost use Rattle.std.specs.List.{list_any};
ghost use Rattle.mv_base.specs.declared.limits.TheConstants.{MAX_VALUES as most_values};
ghost use Rattle.mv_design.specs.declared.table.FileTable.{FileTable};
ghost use Rattle.mv_rows.specs.Cubes.{AreColumns};
ghost use Rattle.mv_rows.specs.Flat.{with_mark, IsMade, IsTable};
ghost use Rattle.mv_rows.specs.Many.{StopsAt};
ghost use Rattle.mv_rows.specs.Marked.{is_marked};
ghost use Rattle.mv_joint.specs.Joint.{IsMadeJoint, StopsCovers};
ghost use Rattle.mv_joint.specs.Plain.{is_joint_marked, IsJointFile};
ghost use Rattle.mv_shapes.specs.Kept.{AreKept, IsKept, IsKnown};
ghost use Rattle.mv_shapes.specs.Rows.{some_full, some_silent, IsFullOf};

use crate::distinct::stand_in;
use crate::full::{FullRows, some_row_is_full, some_row_is_silent};
use crate::over::flat_over;
use crate::shape::Shape;
use indexmap::IndexMap;
use mv_base::{Memory, NetId};
use mv_design::FileTable;
use mv_joint::{CoversStop, JointTable, is_joint_marked, joint_table};
use mv_rows::{Column, FlatTable, RowStop, flat_table_within};
use std::alloc::Global;
use std::marker::Model;

/// A table that stands in many instances of its model, seen by contracts as the table. Where it has one output, its covers are kept
/// for each shape of columns, if they have fewer lines than the table has rows. Besides is kept what a look at all rows tells: whether
/// some row says no value, and whether some row has all values of columns with so many, for those that were asked last. Where it has
/// several outputs, the covers are made of its distinct rows.
#[derive(Drop)]
pub struct SharedTable {
    table: FileTable,
    stand_in: FileTable,
    flats: IndexMap<Vec<u32>, FlatTable>,
    silent: bool,
    full: Option<FullRows>,
}

impl Model for SharedTable {
    ghost use Rattle.mv_design.specs.declared.table.FileTable.{FileTable};
    ghost use Rattle.mv_shapes.specs.Kept.{IsKnown};

    ghost Value = { FileTable };

    ghost view = { λ s. s.table };

    ghost invariant = { λ s. IsKnown s.table s.stand_in s.flats.entries s.silent s.full };
}

impl SharedTable {
    /// An equal table, of which no covers are kept. It shares the rows.
    pub fn of(alloc: Global, table: &FileTable) -> Result<SharedTable, Memory>
        ensures { IfOk result (λ shared. shared ≡ table.now) }
    {
        Ok(SharedTable {
            table: table.copy()?,
            stand_in: stand_in(alloc, table)?,
            flats: IndexMap::new(alloc),
            silent: some_row_is_silent(table.rows.as_slice()),
            full: None,
        })
    }

    /// Whether some row says no value. No row is looked at.
    pub fn some_row_is_silent(&self) -> bool
        ensures { result ≡ some_silent self.now.rows }
    {
        self.silent
    }

    /// Whether some row has all values of columns with so many. Where it was asked for the same numbers before, no row is looked at.
    pub fn some_row_is_full(&mut self, counts: Vec<u16>) -> bool
        requires few { All (λ n. n ≤ most_values) counts.items }
        ensures same { self.new ≡ self.old }
        ensures full { result ≡ some_full counts.items self.old.rows }
    {
        full_kept(&self.table, &mut self.full, counts)
    }

    /// The covers of the table over these columns, unless its cover has more lines than `most`: where covers for columns of their
    /// shape are kept, in the time that these take.
    pub fn flat_table(
        &mut self,
        alloc: Global,
        columns: &[Column],
        mark: NetId,
        most: usize,
    ) -> Result<FlatTable, RowStop>
        requires columns { AreColumns columns.now }
        requires with_mark { AreColumns (with_mark columns.now mark) }
        requires unread { is_marked columns.now self.old ≡ true
            → list_any (λ c. nat_eq c.net.0 mark.0) columns.now ≡ false }
        requires table { IsTable columns.now self.old }
        ensures same { self.new ≡ self.old }
        ensures lines { IfOk result (λ flat. IsMade columns.now self.old mark flat) }
        ensures stop { IfErr result (λ stop. StopsAt columns.now self.old mark most stop) }
    {
        flat_kept(alloc, &self.table, &mut self.flats, columns, mark, most)
    }

    /// Whether the table of several outputs gets a mark over these columns. Only its distinct rows are looked at.
    pub fn is_joint_marked(&self, alloc: Global, columns: &[Column]) -> Result<bool, Memory>
        requires columns { AreColumns columns.now }
        requires table { IsJointFile columns.now self.now }
        ensures { IfOk result (λ b. b ≡ is_joint_marked columns.now self.now) }
    {
        is_joint_marked(alloc, columns, &self.stand_in)
    }

    /// The covers of the table of several outputs over these columns. They are made of its distinct rows.
    pub fn joint_table(
        &self,
        alloc: Global,
        columns: &[Column],
        mark: NetId,
        choice: NetId,
        most: usize,
    ) -> Result<JointTable, CoversStop>
        requires columns { AreColumns columns.now }
        requires with_mark { AreColumns (with_mark columns.now mark) }
        requires unread { list_any (λ c. nat_eq c.net.0 mark.0) columns.now ≡ false }
        requires apart { list_any (λ c. nat_eq c.net.0 choice.0) (with_mark columns.now mark) ≡ false }
        requires table { IsJointFile columns.now self.now }
        ensures lines { IfOk result (λ joint. IsMadeJoint columns.now self.now mark choice joint) }
        ensures stop { IfErr result
            (λ stop. StopsCovers columns.now self.now mark choice most stop) }
    {
        match joint_table(alloc, columns, &self.stand_in, mark, choice, most) {
            Ok(joint) => Ok(joint),
            Err(stop) => Err(stop),
        }
    }
}

/// Whether some row of the table has all values of columns with so many, which is kept.
fn full_kept(table: &FileTable, kept: &mut Option<FullRows>, counts: Vec<u16>) -> bool
    requires few { All (λ n. n ≤ most_values) counts.items }
    requires kept { IfSome kept.old (IsFullOf table.now.rows) }
    ensures kept { IfSome kept.new (IsFullOf table.now.rows) }
    ensures full { result ≡ some_full counts.items table.now.rows }
{
    if let Some(last) = kept {
        if last.counts.as_slice() == counts.as_slice() {
            return last.some;
        }
    }
    let some = some_row_is_full(table.rows.as_slice(), counts.as_slice());
    *kept = Some(FullRows { counts, some });
    some
}

/// The covers of the table over these columns, unless its cover has more lines than `most`, and those that are kept of it, where
/// these may be one shape's more.
fn flat_kept(
    alloc: Global,
    table: &FileTable,
    flats: &mut IndexMap<Vec<u32>, FlatTable>,
    columns: &[Column],
    mark: NetId,
    most: usize,
) -> Result<FlatTable, RowStop>
    requires columns { AreColumns columns.now }
    requires with_mark { AreColumns (with_mark columns.now mark) }
    requires unread { is_marked columns.now table.now ≡ true
        → list_any (λ c. nat_eq c.net.0 mark.0) columns.now ≡ false }
    requires table { IsTable columns.now table.now }
    requires kept { AreKept table.now flats.old.entries }
    ensures kept { AreKept table.now flats.new.entries }
    ensures lines { IfOk result (λ flat. IsMade columns.now table.now mark flat) }
    ensures stop { IfErr result (λ stop. StopsAt columns.now table.now mark most stop) }
{
    let shape = Shape::of(alloc, columns, mark)?;
    let key = shape.key(alloc)?;
    if let Some(flat) = flats.get(&key) {
        return Ok(flat_over(alloc, shape.nets.as_slice(), flat)?);
    }
    let places = shape.columns.as_slice();
    let flat = match flat_table_within(alloc, places, table, shape.mark, most) {
        Ok(flat) => flat,
        Err(stop) => return Err(stop),
    };
    let over = flat_over(alloc, shape.nets.as_slice(), &flat)?;
    keep(flats, table, key, flat)?;
    Ok(over)
}

/// Keeps the covers under the key, if their cover has fewer lines than the table has rows.
fn keep(
    flats: &mut IndexMap<Vec<u32>, FlatTable>,
    table: &FileTable,
    key: Vec<u32>,
    flat: FlatTable,
) -> Result<(), Memory>
    requires made { IsKept table.now key.items flat }
    requires kept { AreKept table.now flats.old.entries }
    ensures { AreKept table.now flats.new.entries }
{
    if flat.cover.lines.len() < table.rows.len() {
        flats.insert(key, flat)?;
    }
    Ok(())
}
