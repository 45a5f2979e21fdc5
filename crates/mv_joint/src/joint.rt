ghost use Rattle.std.specs.Prelude.{◌≡◌, ◌<◌, ◌≤◌, false, length, position, slice_index_or, nat_eq, IfOk, IfErr};
ghost use Rattle.std.specs.List.{list_any};
ghost use Rattle.std.specs.Option.{unwrap_or};
ghost use Rattle.mv_base.specs.Set.{empty};
ghost use Rattle.mv_base.specs.declared.limits.TheConstants.{MAX_JOINT_ROWS, MAX_VALUES};
ghost use Rattle.mv_rows.specs.Cubes.{AreColumns};
ghost use Rattle.mv_rows.specs.Flat.{with_mark, IsTable};
ghost use Rattle.mv_rows.specs.Marked.{is_marked};
ghost use Rattle.mv_joint.specs.OutRows.{same_outs};
ghost use Rattle.mv_joint.specs.Plain.{IsJointFile, plain_of};
ghost use Rattle.mv_joint.specs.Joint.{choice_count, choice_entry, choice_row, choice_default, output_row, output_rows, output_table, table_of};
ghost use Rattle.mv_joint.specs.Joint.{choice_columns, IsCoverOf, AreOutputs, IsMadeJoint, StopsCovers, StopsMany};
ghost use Rattle.mv_joint.specs.Meaning.{IsJointTable};
ghost use Rattle.mv_joint.specs.Lawful.{IsSplit};
ghost use Rattle.mv_joint.specs.Gather.{AreChoices, choice_of};
ghost use Rattle.mv_rows.specs.Many.{StopsAt};

use crate::mark::mark_cover;
use crate::out_row::OutRow;
use crate::plain::{SplitTable, one_entry, plain_table};
use crate::split::PlainRow;
use crate::stop::CoversStop;
use indexmap::IndexSet;
use mv_base::{Items, Memory, NetId, PackedSet, Value, ValueSet};
use mv_cover::Cover;
use mv_design::{Entries, Entry, FileTable, Row, Rows, Sets, short_sets};
use mv_rows::{Column, RowStop, flat_table, flat_table_within};
use std::alloc::Global;

/// A table of several outputs: how many values its choice net has, the choice net's cover, the cover of each output on the
/// choice net, and the cover of the mark net that the choice net reads, if it reads one.
#[derive(Drop)]
pub struct JointTable {
    pub values: u16,
    pub choice: Cover,
    pub outputs: Items<Cover>,
    pub mark: Option<Cover>,
}

/// Why the rows of a table of several outputs aren't split.
#[derive(Clone, Copy, Debug, PartialEq, Eq)]
pub enum JointStop {
    /// It has more than `MAX_JOINT_ROWS` distinct rows of outputs.
    Wide,
    /// Want of memory, which says nothing of the table.
    Memory,
}

impl From<Memory> for JointStop {
    ghost use Rattle.std.specs.Prelude.{◌≡◌};
    ghost use Rattle.mv_joint.specs.declared.joint.JointStop.TheVariants.{Memory as out_of_memory};

    ghost from_gives = { λ _ e. e ≡ out_of_memory };

    fn from(_memory: Memory) -> JointStop {
        JointStop::Memory
    }
}

/// The covers of a table with several outputs, whose columns have nets that are not the choice net nor the mark. Splitting such a table
/// into tables for its outputs would allow their values in any mixture; so the choice net gets a value for each distinct row
/// of outputs, and each output reads it. A row whose entries name columns is one for each choice of their values, the first
/// named column's slowest. Where the default names a column, or where a row says no value of some output, so that it takes the
/// default away and has no line, the default can't stand in the cover. Then the net `mark` gets a cover, which is 0 where some
/// row matches and 1 elsewhere, and the default becomes rows that have the mark at 1. There is no such table with more than
/// `MAX_JOINT_ROWS` distinct rows of outputs. The lines of the mark and those of the choice net are counted while they are made:
/// none behind the first with which there are more than `most`.
#[tactic(auto, using(crate::proofs::Whole::IsJointTable_made))]
pub fn joint_table(
    alloc: Global,
    columns: &[Column],
    table: &FileTable,
    mark: NetId,
    choice: NetId,
    most: usize,
) -> Result<JointTable, CoversStop>
    requires columns { AreColumns columns.now }
    requires with_mark { AreColumns (with_mark columns.now mark) }
    requires unread { list_any (λ c. nat_eq c.net.0 mark.0) columns.now ≡ false }
    requires apart { list_any (λ c. nat_eq c.net.0 choice.0) (with_mark columns.now mark) ≡ false }
    requires table { IsJointFile columns.now table.now }
    ensures lines { IfOk result (λ joint. IsMadeJoint columns.now table.now mark choice joint) }
    ensures relation { IfOk result (λ joint. IsJointTable columns.now table.now mark choice joint) }
    ensures stop { IfErr result (λ stop. StopsCovers columns.now table.now mark choice most stop) }
{
    made(alloc, columns, table, mark, choice, most)
}

/// The covers of a table with several outputs, line by line.
fn made(
    alloc: Global,
    columns: &[Column],
    table: &FileTable,
    mark: NetId,
    choice: NetId,
    most: usize,
) -> Result<JointTable, CoversStop>
    requires columns { AreColumns columns.now }
    requires with_mark { AreColumns (with_mark columns.now mark) }
    requires unread { list_any (λ c. nat_eq c.net.0 mark.0) columns.now ≡ false }
    requires apart { list_any (λ c. nat_eq c.net.0 choice.0) (with_mark columns.now mark) ≡ false }
    requires table { IsJointFile columns.now table.now }
    ensures made { IfOk result (λ joint. IsMadeJoint columns.now table.now mark choice joint) }
    ensures stop { IfErr result (λ stop. StopsCovers columns.now table.now mark choice most stop) }
{
    let found = match plain_table(alloc, columns, table, mark) {
        Ok(found) => found,
        Err(JointStop::Wide) => return Err(CoversStop::Wide),
        Err(JointStop::Memory) => return Err(CoversStop::Memory),
    };
    match covers_of(alloc, columns, table, mark, choice, most, found) {
        Ok(joint) => Ok(joint),
        Err(RowStop::Many) => Err(CoversStop::Many),
        Err(RowStop::Memory) => Err(CoversStop::Memory),
    }
}

/// The covers of a table whose rows are split. The choice net's come last, since the others' are told by the rows of outputs and by
/// the table alone.
fn covers_of(
    alloc: Global,
    columns: &[Column],
    table: &FileTable,
    mark: NetId,
    choice: NetId,
    most: usize,
    found: SplitTable,
) -> Result<JointTable, RowStop>
    requires columns { AreColumns columns.now }
    requires with_mark { AreColumns (with_mark columns.now mark) }
    requires apart { list_any (λ c. nat_eq c.net.0 choice.0) (with_mark columns.now mark) ≡ false }
    requires table { IsJointFile columns.now table.now }
    requires found { AreChoices (plain_of columns.now table.now mark) found }
    requires few { length found.choices.keys ≤ MAX_JOINT_ROWS }
    ensures made { IfOk result (λ joint. IsMadeJoint columns.now table.now mark choice joint) }
    ensures stop { IfErr result (λ stop. StopsMany columns.now table.now mark choice most stop) }
{
    let all = found.choices.as_slice();
    let values = choice_count(all);
    let outputs = output_covers(alloc, all, table.outputs.len(), mark, choice)?;
    let marks = match mark_cover(alloc, columns, table, mark, most) {
        Ok(marks) => marks,
        Err(stop) => return Err(stop),
    };
    let chosen = match choice_cover(alloc, &found, mark, most) {
        Ok(chosen) => chosen,
        Err(stop) => return Err(stop),
    };
    Ok(JointTable {
        values,
        choice: chosen,
        outputs,
        mark: marks,
    })
}

/// How many values the choice net has: one for each row of outputs, and one if there is none.
fn choice_count(all: &[OutRow]) -> u16
    requires { length all.now ≤ MAX_VALUES }
    ensures { result ≡ choice_count all.now }
{
    if all.is_empty() {
        return 1;
    }
    all.len() as u16
}

/// The cover of a table of one output that needs no mark.
#[tactic(auto, using(crate::proofs::Unmarked::cover_unmarked))]
fn cover_of(
    alloc: Global,
    columns: &[Column],
    table: &FileTable,
    mark: NetId,
) -> Result<Cover, Memory>
    requires columns { AreColumns columns.now }
    requires with_mark { AreColumns (with_mark columns.now mark) }
    requires table { IsTable columns.now table.now }
    requires unmarked { is_marked columns.now table.now ≡ false }
    ensures { IfOk result (λ cover. IsCoverOf columns.now table.now mark cover) }
{
    let flat = flat_table(alloc, columns, table, mark)?;
    Ok(flat.cover)
}

/// The cover of the choice net, unless it has more lines than `most`.
#[tactic(auto, using(crate::proofs::Unmarked::cover_unmarked))]
fn choice_cover(
    alloc: Global,
    found: &SplitTable,
    mark: NetId,
    most: usize,
) -> Result<Cover, RowStop>
    requires found { IsSplit mark found.now }
    ensures cover { IfOk result
        (λ cover. IsCoverOf found.now.columns (choice_of found.now) mark cover) }
    ensures stop { IfErr result
        (λ stop. StopsAt found.now.columns (choice_of found.now) mark most stop) }
{
    let table = choice_table(alloc, found)?;
    let columns = found.columns.as_slice();
    let flat = match flat_table_within(alloc, columns, &table, mark, most) {
        Ok(flat) => flat,
        Err(stop) => return Err(stop),
    };
    Ok(flat.cover)
}

/// The choice net's table.
fn choice_table(alloc: Global, found: &SplitTable) -> Result<FileTable, Memory>
    requires few { length found.now.choices.keys ≤ MAX_VALUES }
    ensures { IfOk result (λ table. table ≡ choice_of found.now) }
{
    let all = &found.choices;
    let mut rows = Items::with_room(alloc, found.rows.len())?;
    for row in found.rows.as_slice() {
        rows.push(choice_row(alloc, all, row)?)?;
    }
    let default = choice_default(alloc, all, &found.default)?;
    table_of(alloc, rows, default)
}

/// The choice net's value for a row of outputs.
fn choice_entry(alloc: Global, all: &IndexSet<OutRow>, outs: &OutRow) -> Result<Entry, Memory>
    requires few { length all.now.keys ≤ MAX_VALUES }
    ensures { IfOk result (λ entry. entry ≡ choice_entry all.now.keys outs.now) }
{
    one_entry(alloc, Value(place_of(all, outs)))
}

/// The place of the row of outputs among these.
fn place_of(all: &IndexSet<OutRow>, outs: &OutRow) -> u16
    requires few { length all.now.keys ≤ MAX_VALUES }
    ensures place { result ≡ unwrap_or (position (same_outs outs.now) all.now.keys) 0 }
    ensures few { result < MAX_VALUES }
{
    match all.get_index_of(outs) {
        Some(place) => place as u16,
        None => 0,
    }
}

/// The row of the choice net's table.
fn choice_row(alloc: Global, all: &IndexSet<OutRow>, row: &PlainRow) -> Result<Row, Memory>
    requires few { length all.now.keys ≤ MAX_VALUES }
    ensures { IfOk result (λ r. r ≡ choice_row all.now.keys row.now) }
{
    Ok(Row {
        ins: short_sets(alloc, row.ins.as_slice())?,
        outs: Entries::one(choice_entry(alloc, all, &row.outs)?),
    })
}

/// Its default.
fn choice_default(
    alloc: Global,
    all: &IndexSet<OutRow>,
    default: &Option<OutRow>,
) -> Result<Option<Entries>, Memory>
    requires few { length all.now.keys ≤ MAX_VALUES }
    ensures { IfOk result (λ entries. entries ≡ choice_default all.now.keys default.now) }
{
    match default {
        None => Ok(None),
        Some(outs) => Ok(Some(Entries::one(choice_entry(alloc, all, outs)?))),
    }
}

/// A table of one output with these rows and this default.
fn table_of(alloc: Global, rows: Items<Row>, default: Option<Entries>) -> Result<FileTable, Memory>
    ensures { IfOk result (λ table. table ≡ table_of rows default) }
{
    Ok(FileTable {
        line: 0,
        inputs: Items::new(alloc),
        outputs: Items::new(alloc),
        rows: Rows::of(alloc, rows)?,
        default,
    })
}

/// The covers of so many outputs.
fn output_covers(
    alloc: Global,
    all: &[OutRow],
    outputs: usize,
    mark: NetId,
    choice: NetId,
) -> Result<Items<Cover>, Memory>
    requires few { length all.now ≤ MAX_VALUES }
    requires apart { nat_eq mark.0 choice.0 ≡ false }
    ensures many { IfOk result (λ covers. length covers ≡ outputs) }
    ensures each { IfOk result (λ covers. AreOutputs all.now mark choice 0 covers) }
{
    let column = Column {
        net: choice,
        count: choice_count(all),
    };
    let mut covers = Items::new(alloc);
    for output in 0..outputs {
        covers.push(output_cover(alloc, all, &column, output, mark)?)?;
    }
    Ok(covers)
}

/// The cover of the output on the choice net.
fn output_cover(
    alloc: Global,
    all: &[OutRow],
    column: &Column,
    output: usize,
    mark: NetId,
) -> Result<Cover, Memory>
    requires few { length all.now ≤ MAX_VALUES }
    requires apart { nat_eq mark.0 column.now.net.0 ≡ false }
    requires column { column.now.count ≡ choice_count all.now }
    ensures { IfOk result
        (λ cover. IsCoverOf (choice_columns all.now column.now.net)
        (output_table all.now output) mark cover) }
{
    let table = table_of(alloc, output_rows(alloc, all, output)?, None)?;
    cover_of(alloc, std::slice::from_ref(column), &table, mark)
}

/// For each value of the choice net, its set for the output.
fn output_rows(alloc: Global, all: &[OutRow], output: usize) -> Result<Items<Row>, Memory>
    requires few { length all.now ≤ MAX_VALUES }
    ensures { IfOk result (λ rows. rows ≡ output_rows output 0 all.now) }
{
    let mut rows = Items::with_room(alloc, all.len())?;
    for (value, outs) in all.iter().enumerate() {
        rows.push(output_row(alloc, Value(value as u16), outs, output)?)?;
    }
    Ok(rows)
}

/// The row of the value of the choice net.
fn output_row(alloc: Global, value: Value, outs: &OutRow, output: usize) -> Result<Row, Memory>
    requires { value.0 < MAX_VALUES }
    ensures { IfOk result (λ row. row ≡ output_row output value.0 outs.now) }
{
    Ok(Row {
        ins: Sets::one(PackedSet::one(alloc, value)?),
        outs: Entries::one(Entry::Set(set_at(alloc, outs, output)?)),
    })
}

/// The set for the output.
fn set_at(alloc: Global, outs: &OutRow, output: usize) -> Result<PackedSet, Memory>
    ensures { IfOk result (λ set. set ≡ slice_index_or outs.now output empty) }
{
    match outs.as_slice().get(output) {
        Some(set) => set.copy(),
        None => PackedSet::new(alloc, ValueSet::empty()),
    }
}
