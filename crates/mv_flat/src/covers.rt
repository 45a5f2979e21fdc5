//! The covers of a table: of its outputs, and of the nets that are made for it.
ghost use Rattle.std.specs.Prelude.{◌≡◌, ◌+◌, ◌<◌, ◌≤◌, true, length, is_some, IfErr, IfOk, OnOk};
ghost use Rattle.mv_base.specs.Names.{among};
ghost use Rattle.mv_base.specs.declared.limits.TheConstants.{MAX_FLAT_LINES, MAX_NETS};
ghost use Rattle.mv_design.specs.Nets.{output_of};
ghost use Rattle.mv_rows.specs.declared.table.FlatTable.{FlatTable};
ghost use Rattle.mv_rows.specs.Cubes.{AreColumns};
ghost use Rattle.mv_rows.specs.Flat.{IsMade, IsTable};
ghost use Rattle.mv_rows.specs.Many.{StopsAt};
ghost use Rattle.mv_rows.specs.Marked.{is_marked};
ghost use Rattle.mv_joint.specs.declared.joint.JointTable.{JointTable};
ghost use Rattle.mv_joint.specs.Joint.{mark_lines, IsMadeJoint, StopsCovers};
ghost use Rattle.mv_joint.specs.Plain.{is_joint_marked, IsJointFile};
ghost use Rattle.mv_flat.specs.Covers.{IsMadeTable};
ghost use Rattle.mv_flat.specs.Gathered.{IsMarkNumber, number_or_past};
ghost use Rattle.mv_flat.specs.Numbers.{choice_at, choice_name, mark_at};
ghost use Rattle.mv_flat.specs.Placed.{AreColumnsOf};
ghost use Rattle.mv_flat.specs.Places.{is_joint};
ghost use Rattle.mv_flat.specs.Shared.{IsFrom, KeepsOrigins};
ghost use Rattle.mv_flat.specs.Sized.{IsWithinSize, TellsCovers, TellsJoint, TellsPast};

use crate::mark::{choice_name, is_joint, is_plain, mark_name};
use crate::shared::SharedTables;
use crate::size::Size;
use mv_acyclic::Numbers;
use mv_base::{MAX_JOINT_ROWS, Memory, Name, NetId};
use mv_design::FileTable;
use mv_fault::FlatFault;
use mv_joint::{CoversStop, JointTable, is_joint_marked};
use mv_rows::{Column, FlatTable, RowStop, is_marked};
use std::alloc::Global;

/// The covers of a table: those of its output and its mark, where it has one output; else those of its outputs, its choice net
/// and its mark.
#[derive(Drop)]
pub enum TableCovers {
    Single(FlatTable),
    Joint(JointTable),
}

/// The covers of a table over its columns, in a network of this size. The fault is that it has too many distinct rows of outputs,
/// or the first limit that the network passes with it: its lines are counted while they are made.
#[tactic(auto, using(crate::proofs::CoverNeeds::own_single, crate::proofs::JointPast::joint_covers))]
pub fn covers(
    alloc: Global,
    columns: &[Column],
    names: &Numbers,
    table: &FileTable,
    size: Size,
    shared: &mut SharedTables,
) -> Result<TableCovers, FlatFault>
    requires columns { AreColumnsOf names.now table.now columns.now }
    requires few { length names.now ≤ MAX_NETS }
    requires chosen { is_joint table.now ≡ true
        → among (choice_name (output_of table.now)) names.now ≡ true }
    requires within { IsWithinSize size }
    requires from { IsFrom shared.old table.now }
    ensures kept { OnOk result (KeepsOrigins shared.old shared.new) }
    ensures made { IfOk result
        (λ covers. IsMadeTable columns.now table.now (mark_at names.now table.now)
        (choice_at names.now table.now) covers) }
    ensures stop { IfErr result (TellsCovers columns.now names.now table.now size) }
{
    if is_joint(table) {
        return match joint_covers(alloc, columns, names, table, size, shared) {
            Ok(joint) => Ok(TableCovers::Joint(joint)),
            Err(fault) => Err(fault),
        };
    }
    match sized_covers(alloc, columns, names, table, size, shared) {
        Ok(flat) => Ok(TableCovers::Single(flat)),
        Err(fault) => Err(fault),
    }
}

/// The covers of the output of a table and of its mark, in a network of this size.
#[tactic(auto, using(crate::proofs::Passing::many_told))]
fn sized_covers(
    alloc: Global,
    columns: &[Column],
    names: &Numbers,
    table: &FileTable,
    size: Size,
    shared: &mut SharedTables,
) -> Result<FlatTable, FlatFault>
    requires columns { AreColumnsOf names.now table.now columns.now }
    requires single { length table.now.outputs ≡ 1 }
    requires few { length names.now ≤ MAX_NETS }
    requires within { IsWithinSize size }
    requires from { IsFrom shared.old table.now }
    ensures kept { OnOk result (KeepsOrigins shared.old shared.new) }
    ensures made { IfOk result
        (λ flat. IsMade columns.now table.now (mark_at names.now table.now) flat) }
    ensures stop { IfErr result (TellsCovers columns.now names.now table.now size) }
{
    match single_covers(alloc, columns, names, table, size.lines_left(), shared) {
        Ok(flat) => Ok(flat),
        Err(RowStop::Many) => Err(past(alloc, columns, table, size)),
        Err(RowStop::Memory) => Err(FlatFault::Memory),
    }
}

/// The first limit that is passed with a table of one output whose cover has more lines than there may be.
#[tactic(auto, using(crate::proofs::Passing::past_holds))]
fn past(alloc: Global, columns: &[Column], table: &FileTable, size: Size) -> FlatFault
    requires columns { AreColumns columns.now }
    requires table { IsTable columns.now table.now }
    requires some { 0 < length table.now.outputs }
    requires within { IsWithinSize size }
    ensures { (flat : FlatTable) → is_some flat.mark ≡ is_marked columns.now table.now
        → MAX_FLAT_LINES < size.lines + length flat.cover.lines
        → TellsPast size table.now flat result }
{
    match is_marked(alloc, columns, table) {
        Ok(marked) => size.past(table, marked),
        Err(_memory) => FlatFault::Memory,
    }
}

/// The covers of the output of a table and of its mark, unless the output's has more lines than `most`.
#[tactic(auto, using(crate::proofs::Unmarked::own_made, crate::proofs::Passing::own_stops))]
fn single_covers(
    alloc: Global,
    columns: &[Column],
    names: &Numbers,
    table: &FileTable,
    most: usize,
    shared: &mut SharedTables,
) -> Result<FlatTable, RowStop>
    requires columns { AreColumnsOf names.now table.now columns.now }
    requires single { length table.now.outputs ≡ 1 }
    requires few { length names.now ≤ MAX_NETS }
    requires from { IsFrom shared.old table.now }
    ensures kept { OnOk result (KeepsOrigins shared.old shared.new) }
    ensures made { IfOk result
        (λ flat. IsMade columns.now table.now (mark_at names.now table.now) flat) }
    ensures stop { IfErr result
        (λ stop. StopsAt columns.now table.now (mark_at names.now table.now) most stop) }
{
    let mark = mark_of(alloc, names, table, shared)?;
    match shared.flat_table(alloc, columns, table, mark, most) {
        Ok(flat) => Ok(flat),
        Err(stop) => Err(stop),
    }
}

/// The number of the table's mark. A table without one has a number past all others, and so may one have that is known to get none
/// from a look at it: no name is made for it.
fn mark_of(
    alloc: Global,
    names: &Numbers,
    table: &FileTable,
    shared: &SharedTables,
) -> Result<NetId, Memory>
    requires single { length table.now.outputs ≡ 1 }
    requires few { length names.now ≤ MAX_NETS }
    requires from { IsFrom shared.now table.now }
    ensures { IfOk result (IsMarkNumber names.now table.now) }
{
    if is_plain(table, shared) {
        return Ok(NetId(names.len() as u32));
    }
    let name = mark_name(alloc, &table.outputs.as_slice()[0])?;
    Ok(number_or_past(names, &name))
}

/// The covers of the outputs of a table, of its choice net and of its mark, in a network of this size.
#[tactic(auto, using(crate::proofs::JointPast::joint_told, crate::proofs::JointPast::wide_told))]
fn joint_covers(
    alloc: Global,
    columns: &[Column],
    names: &Numbers,
    table: &FileTable,
    size: Size,
    shared: &SharedTables,
) -> Result<JointTable, FlatFault>
    requires columns { AreColumnsOf names.now table.now columns.now }
    requires few { length names.now ≤ MAX_NETS }
    requires joint { is_joint table.now ≡ true }
    requires chosen { among (choice_name (output_of table.now)) names.now ≡ true }
    requires within { IsWithinSize size }
    requires from { IsFrom shared.now table.now }
    ensures made { IfOk result
        (IsMadeJoint columns.now table.now (mark_at names.now table.now)
        (choice_at names.now table.now)) }
    ensures stop { IfErr result (TellsCovers columns.now names.now table.now size) }
{
    match several_covers(alloc, columns, names, table, size.lines_left(), shared) {
        Ok(joint) => Ok(joint),
        Err(CoversStop::Wide) => Err(FlatFault::JointWide {
            number: MAX_JOINT_ROWS + 1,
        }),
        Err(CoversStop::Many) => Err(joint_past(alloc, columns, table, size)),
        Err(CoversStop::Memory) => Err(FlatFault::Memory),
    }
}

/// The first limit that is passed with a table of several outputs whose covers have more lines than there may be.
#[tactic(auto, using(crate::proofs::JointPast::past_holds))]
fn joint_past(alloc: Global, columns: &[Column], table: &FileTable, size: Size) -> FlatFault
    requires columns { AreColumns columns.now }
    requires table { IsJointFile columns.now table.now }
    requires some { 0 < length table.now.outputs }
    requires within { IsWithinSize size }
    ensures { (joint : JointTable) → is_some joint.mark ≡ is_joint_marked columns.now table.now
        → MAX_FLAT_LINES
        < size.lines + (length (mark_lines joint.mark) + length joint.choice.lines)
        → TellsJoint size table.now joint result }
{
    match is_joint_marked(alloc, columns, table) {
        Ok(marked) => size.past_joint(table, marked),
        Err(_memory) => FlatFault::Memory,
    }
}

/// The covers of the outputs of a table, of its choice net and of its mark, unless the latter two have more lines than `most`.
#[tactic(auto, using(crate::proofs::CoverNeeds::own_needs))]
fn several_covers(
    alloc: Global,
    columns: &[Column],
    names: &Numbers,
    table: &FileTable,
    most: usize,
    shared: &SharedTables,
) -> Result<JointTable, CoversStop>
    requires columns { AreColumnsOf names.now table.now columns.now }
    requires few { length names.now ≤ MAX_NETS }
    requires joint { is_joint table.now ≡ true }
    requires chosen { among (choice_name (output_of table.now)) names.now ≡ true }
    requires from { IsFrom shared.now table.now }
    ensures made { IfOk result
        (IsMadeJoint columns.now table.now (mark_at names.now table.now)
        (choice_at names.now table.now)) }
    ensures stop { IfErr result
        (StopsCovers columns.now table.now (mark_at names.now table.now)
        (choice_at names.now table.now) most) }
{
    let first = &table.outputs.as_slice()[0];
    let mark = number_or_past(names, &mark_name(alloc, first)?);
    let choice = number_or_past(names, &choice_name(alloc, first)?);
    match shared.joint_table(alloc, columns, table, mark, choice, most) {
        Ok(joint) => Ok(joint),
        Err(stop) => Err(stop),
    }
}

/// The number of the net with this name, or one past all others.
fn number_or_past(names: &Numbers, name: &Name) -> NetId
    requires { length names.now ≤ MAX_NETS }
    ensures { result ≡ number_or_past names.now name.now }
{
    let place = names.place(name).unwrap_or(names.len());
    NetId(place as u32)
}
