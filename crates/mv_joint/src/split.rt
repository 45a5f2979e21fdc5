ghost use Rattle.std.specs.Prelude.{◌≡◌, ◌<◌, ◌≤◌, [], true, not, length, filter, IfOk, IfErr, OnOk, All};
ghost use Rattle.mv_base.specs.declared.limits.TheConstants.{MAX_JOINT_ROWS, MAX_VALUES};
ghost use Rattle.mv_rows.specs.Cubes.{IsFrame, FitRow};
ghost use Rattle.mv_rows.specs.Lines.{FitEntry, count_at};
ghost use Rattle.mv_rows.specs.Marked.{matches_none};
ghost use Rattle.mv_joint.specs.Split.{narrowing, is_possible, rows_of, IsFit};
ghost use Rattle.mv_joint.specs.Plain.{is_silent};
ghost use Rattle.mv_joint.specs.Gather.{rest_of, listed, Gathers, StopsOver};

use crate::gather::Gathered;
use crate::joint::JointStop;
use crate::out_row::OutRow;
use mv_base::{Items, Memory, PackedSet, Value, ValueSet};
use mv_design::{Entry, copy_sets};
use mv_rows::Frame;
use std::alloc::Global;

/// A row with a set for each input column and one for each output.
#[derive(Drop)]
pub struct PlainRow {
    pub ins: Items<PackedSet>,
    pub outs: OutRow,
}

/// Whether some output has no value in the row.
pub fn is_silent(row: &PlainRow) -> bool
    ensures { result ≡ is_silent row.now }
{
    let sets = row.outs.as_slice();
    sets.iter().any(|set| set.is_empty())
}

/// Adds the rows with these sets and these entries that match something: one, or where entries name columns one for each
/// choice of their values.
pub fn put_rows(
    gathered: &mut Gathered,
    alloc: Global,
    frame: &Frame,
    ins: &[PackedSet],
    entries: &[Entry],
) -> Result<(), JointStop>
    requires frame { IsFrame frame.now }
    requires sets { FitRow frame.now.columns ins.now }
    requires entries { All (FitEntry frame.now.columns) entries.now }
    requires few { length gathered.old.outs.keys ≤ MAX_JOINT_ROWS }
    ensures rows { OnOk result
        (Gathers (rows_of frame.now.columns ins.now entries.now) gathered.old gathered.new) }
    ensures few { OnOk result (length gathered.new.outs.keys ≤ MAX_JOINT_ROWS) }
    ensures stop { IfErr result
        (λ stop. StopsOver (rows_of frame.now.columns ins.now entries.now) gathered.old stop) }
{
    if !is_possible(alloc, frame, ins)? {
        return Ok(());
    }
    let row = bare_row(alloc, ins, entries.len())?;
    put_rest(gathered, alloc, frame, row, entries)
}

/// The row with these sets and no output yet, with room for so many.
pub fn bare_row(alloc: Global, ins: &[PackedSet], outputs: usize) -> Result<PlainRow, Memory>
    ensures { IfOk result (λ row. row ≡ record { ins = ins.now; outs = [] }) }
{
    Ok(PlainRow {
        ins: copy_sets(alloc, ins)?,
        outs: OutRow::of(Items::with_room(alloc, outputs)?),
    })
}

/// Whether a row with these sets matches something.
#[tactic(auto, using(mv_rows::proofs::Possible::possible_from_cube))]
pub fn is_possible(alloc: Global, frame: &Frame, ins: &[PackedSet]) -> Result<bool, Memory>
    requires frame { IsFrame frame.now }
    requires sets { FitRow frame.now.columns ins.now }
    ensures { IfOk result (λ possible. possible ≡ not (matches_none frame.now.columns ins.now)) }
{
    let cube = frame.cube(alloc, ins)?;
    Ok(cube.is_some())
}

/// Adds the rows of the row with these entries more that match something. A row that matches nothing with the values of
/// some of its entries is left there, so that no more rows are made than there are distinct rows of outputs.
fn put_rest(
    gathered: &mut Gathered,
    alloc: Global,
    frame: &Frame,
    row: PlainRow,
    entries: &[Entry],
) -> Result<(), JointStop>
    requires frame { IsFrame frame.now }
    requires fit { IsFit frame.now.columns row }
    requires possible { is_possible frame.now.columns row ≡ true }
    requires entries { All (FitEntry frame.now.columns) entries.now }
    requires few { length gathered.old.outs.keys ≤ MAX_JOINT_ROWS }
    ensures rows { OnOk result
        (Gathers (rest_of frame.now.columns entries.now row) gathered.old gathered.new) }
    ensures few { OnOk result (length gathered.new.outs.keys ≤ MAX_JOINT_ROWS) }
    ensures stop { IfErr result
        (λ stop. StopsOver (rest_of frame.now.columns entries.now row) gathered.old stop) }
{
    let Some((entry, rest)) = entries.split_first() else {
        return gathered.put(row);
    };
    match entry {
        Entry::Set(out) => {
            let mut row = row;
            row.outs.push(out.copy()?)?;
            put_rest(gathered, alloc, frame, row, rest)
        }
        Entry::Same(place) => {
            let place = *place as usize;
            for value in 0..count(frame, place) {
                let Some(next) = narrowed(alloc, frame, &row, place, Value(value))? else {
                    continue;
                };
                match put_rest(gathered, alloc, frame, next, rest) {
                    Ok(()) => {}
                    Err(stop) => return Err(stop),
                }
            }
            Ok(())
        }
    }
}

/// How many values the net of the column at the place has.
pub fn count(frame: &Frame, place: usize) -> u16
    requires frame { IsFrame frame.now }
    requires place { place < length frame.now.columns }
    ensures value { result ≡ count_at frame.now.columns place }
    ensures few { result ≤ MAX_VALUES }
{
    frame.columns.as_slice()[place].count
}

/// The row that has the value alone at the place, and as the set of one output more, if the row has it there and then matches
/// something.
pub fn narrowed(
    alloc: Global,
    frame: &Frame,
    row: &PlainRow,
    place: usize,
    value: Value,
) -> Result<Option<PlainRow>, Memory>
    requires frame { IsFrame frame.now }
    requires fit { IsFit frame.now.columns row.now }
    requires place { place < length frame.now.columns }
    requires value { value.0 < MAX_VALUES }
    ensures { IfOk result
        (λ found. listed found
        ≡ filter (is_possible frame.now.columns) (narrowing place row.now value.0)) }
{
    if !row.ins.as_slice()[place].has(value) {
        return Ok(None);
    }
    let mut ins = copy_sets(alloc, row.ins.as_slice())?;
    let alone = PackedSet::new(alloc, ValueSet::one(value))?;
    let said = alone.copy()?;
    ins.replace(place, alone);
    if !is_possible(alloc, frame, ins.as_slice())? {
        return Ok(None);
    }
    let mut outs = row.outs.copy()?;
    outs.push(said)?;
    Ok(Some(PlainRow { ins, outs }))
}
