//! The cover of the mark of a table of several outputs. Its lines are counted while the rows are split: a row whose entries name
//! columns may give very many of them, where it says nothing of some output.
ghost use Rattle.std.specs.Prelude.{◌≡◌, ◌∷◌, [], true, map, IfErr, IfOk, OnOk, All};
ghost use Rattle.mv_rows.specs.Cubes.{AreColumns, IsFrame, FitRow};
ghost use Rattle.mv_rows.specs.Flat.{with_mark};
ghost use Rattle.mv_rows.specs.Lines.{FitEntry};
ghost use Rattle.mv_rows.specs.Many.{StopsAt};
ghost use Rattle.mv_rows.specs.Once.{AreDistinct, PutsRows, StopsLines, StopsRows};
ghost use Rattle.mv_joint.specs.Gather.{rest_of};
ghost use Rattle.mv_joint.specs.Joint.{IsCoverOf, IsMarkOf, StopsMark};
ghost use Rattle.mv_joint.specs.Plain.{IsJointFile, mark_of, mark_row, mark_table};
ghost use Rattle.mv_joint.specs.Split.{all_rows, is_possible, rows_of, IsFit};

use crate::marked::is_joint_marked;
use crate::plain::one_entry;
use crate::split::{PlainRow, bare_row, count, is_possible, narrowed};
use mv_base::{NetId, PackedSet, Value};
use mv_cover::{Cover, Line};
use mv_design::{Entries, Entry, FileTable, Row};
use mv_rows::{Column, Frame, LineSet, RowStop, flat_table_of};
use std::alloc::Global;

/// The cover of the mark, if the table gets one, unless it has more lines than `most`.
pub fn mark_cover(
    alloc: Global,
    columns: &[Column],
    table: &FileTable,
    mark: NetId,
    most: usize,
) -> Result<Option<Cover>, RowStop>
    requires columns { AreColumns columns.now }
    requires with_mark { AreColumns (with_mark columns.now mark) }
    requires table { IsJointFile columns.now table.now }
    ensures cover { IfOk result
        (λ cover. IsMarkOf columns.now mark (mark_of columns.now table.now) cover) }
    ensures stop { IfErr result (λ stop. StopsMark columns.now table.now mark most stop) }
{
    if !is_joint_marked(alloc, columns, table)? {
        return Ok(None);
    }
    match marked_cover(alloc, columns, table, mark, most) {
        Ok(cover) => Ok(Some(cover)),
        Err(stop) => Err(stop),
    }
}

/// The cover of the mark: 0 where some row matches, and 1 elsewhere.
#[tactic(auto, using(crate::proofs::Unmarked::cover_unmarked))]
fn marked_cover(
    alloc: Global,
    columns: &[Column],
    table: &FileTable,
    mark: NetId,
    most: usize,
) -> Result<Cover, RowStop>
    requires columns { AreColumns columns.now }
    requires with_mark { AreColumns (with_mark columns.now mark) }
    requires table { IsJointFile columns.now table.now }
    ensures cover { IfOk result
        (λ cover. IsCoverOf columns.now
        (mark_table (all_rows columns.now table.now.rows)) mark cover) }
    ensures stop { IfErr result
        (λ stop. StopsAt columns.now
        (mark_table (all_rows columns.now table.now.rows)) mark most stop) }
{
    let frame = Frame::new(alloc, columns)?;
    let set = match mark_lines(alloc, &frame, table, most) {
        Ok(set) => set,
        Err(stop) => return Err(stop),
    };
    let default = Some(Entries::one(one_entry(alloc, Value(1))?));
    let flat = flat_table_of(alloc, columns, &default, mark, set)?;
    Ok(flat.cover)
}

/// The distinct lines of the mark.
fn mark_lines(
    alloc: Global,
    frame: &Frame,
    table: &FileTable,
    most: usize,
) -> Result<LineSet, RowStop>
    requires frame { IsFrame frame.now }
    requires table { IsJointFile frame.now.columns table.now }
    ensures lines { IfOk result
        (λ set. AreDistinct frame.now.columns
        (map mark_row (all_rows frame.now.columns table.now.rows)) most set) }
    ensures stop { IfErr result
        (λ stop. StopsLines frame.now.columns
        (map mark_row (all_rows frame.now.columns table.now.rows)) most stop) }
{
    let mut set = LineSet::new(alloc, most);
    for row in table.rows.as_slice() {
        match put_row(&mut set, alloc, frame, row) {
            Ok(()) => {}
            Err(stop) => return Err(stop),
        }
    }
    Ok(set)
}

/// Adds the mark's lines of the rows of a row.
fn put_row(set: &mut LineSet, alloc: Global, frame: &Frame, row: &Row) -> Result<(), RowStop>
    requires frame { IsFrame frame.now }
    requires sets { FitRow frame.now.columns row.now.ins }
    requires entries { All (FitEntry frame.now.columns) row.now.outs }
    ensures rows { OnOk result
        (PutsRows frame.now.columns
        (map mark_row (rows_of frame.now.columns row.now.ins row.now.outs)) set.old set.new) }
    ensures stop { IfErr result
        (λ stop. StopsRows frame.now.columns
        (map mark_row (rows_of frame.now.columns row.now.ins row.now.outs)) set.old stop) }
{
    let (ins, outs) = (row.ins.as_slice(), row.outs.as_slice());
    if !is_possible(alloc, frame, ins)? {
        return Ok(());
    }
    let bare = bare_row(alloc, ins, outs.len())?;
    put_rest(set, alloc, frame, bare, outs)
}

/// Adds the mark's lines of the rows of the row with these entries more.
fn put_rest(
    set: &mut LineSet,
    alloc: Global,
    frame: &Frame,
    row: PlainRow,
    entries: &[Entry],
) -> Result<(), RowStop>
    requires frame { IsFrame frame.now }
    requires fit { IsFit frame.now.columns row }
    requires possible { is_possible frame.now.columns row ≡ true }
    requires entries { All (FitEntry frame.now.columns) entries.now }
    ensures rows { OnOk result
        (PutsRows frame.now.columns
        (map mark_row (rest_of frame.now.columns entries.now row)) set.old set.new) }
    ensures stop { IfErr result
        (λ stop. StopsRows frame.now.columns
        (map mark_row (rest_of frame.now.columns entries.now row)) set.old stop) }
{
    let Some((entry, rest)) = entries.split_first() else {
        return put_line(set, alloc, frame, &row);
    };
    match entry {
        Entry::Set(out) => {
            let mut row = row;
            row.outs.push(out.copy()?)?;
            put_rest(set, alloc, frame, row, rest)
        }
        Entry::Same(place) => {
            let place = *place as usize;
            for value in 0..count(frame, place) {
                let Some(next) = narrowed(alloc, frame, &row, place, Value(value))? else {
                    continue;
                };
                match put_rest(set, alloc, frame, next, rest) {
                    Ok(()) => {}
                    Err(stop) => return Err(stop),
                }
            }
            Ok(())
        }
    }
}

/// Adds the mark's line of a row.
fn put_line(set: &mut LineSet, alloc: Global, frame: &Frame, row: &PlainRow) -> Result<(), RowStop>
    requires frame { IsFrame frame.now }
    requires fit { IsFit frame.now.columns row.now }
    ensures rows { OnOk result
        (PutsRows frame.now.columns (mark_row row.now ∷ []) set.old set.new) }
    ensures stop { IfErr result
        (λ stop. StopsRows frame.now.columns (mark_row row.now ∷ []) set.old stop) }
{
    let Some(cube) = frame.cube(alloc, row.ins.as_slice())? else {
        return Ok(());
    };
    let out = PackedSet::one(alloc, Value(0))?;
    set.put(Line { cube, out })
}
