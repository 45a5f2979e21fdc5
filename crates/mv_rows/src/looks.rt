//! Which tables get a mark, as a look at their rows tells: no line is made.
ghost use Rattle.std.specs.Prelude.{◌≡◌, ◌&&◌, not, true, IfOk, Some, All};
ghost use Rattle.std.specs.List.{list_any};
ghost use Rattle.mv_rows.specs.Cubes.{AreColumns, IsFrame, FitRow};
ghost use Rattle.mv_rows.specs.Flat.{only_entry, says_nothing, IsRow, IsTable};
ghost use Rattle.mv_rows.specs.Lines.{FitEntry};
ghost use Rattle.mv_rows.specs.Marked.{is_bare, is_marked, is_silent, matches_all, matches_none, needs_mark, some_row_bare};
ghost use Rattle.mv_rows.specs.Single.{is_single};

use crate::column::{Column, Frame};
use mv_base::{Items, Memory, PackedSet};
use mv_design::{Entry, FileTable, Row};
use std::alloc::Global;

/// Whether the table of one output gets a mark: its default is left, and can't stand as a set.
#[tactic(auto, unfolding(crate::specs::Marked::is_marked))]
pub fn is_marked(alloc: Global, columns: &[Column], table: &FileTable) -> Result<bool, Memory>
    requires columns { AreColumns columns.now }
    requires table { IsTable columns.now table.now }
    ensures { IfOk result (λ b. b ≡ is_marked columns.now table.now) }
{
    let Some(entries) = &table.default else {
        return Ok(false);
    };
    let entry = &entries.as_slice()[0];
    if says_nothing(entry) {
        return Ok(false);
    }
    let frame = Frame::new(alloc, columns)?;
    let rows = table.rows.as_slice();
    if some_row_is_bare(alloc, &frame, rows)? {
        return Ok(false);
    }
    needs_mark(alloc, &frame, rows, entry)
}

/// Whether some row gives a line without literals.
fn some_row_is_bare(alloc: Global, frame: &Frame, rows: &[Row]) -> Result<bool, Memory>
    requires frame { IsFrame frame.now }
    requires rows { All (IsRow frame.now.columns) rows.now }
    ensures { IfOk result (λ b. b ≡ some_row_bare frame.now.columns rows.now) }
{
    for row in rows {
        if is_bare(alloc, frame, row.ins.as_slice(), &row.outs.as_slice()[0])? {
            return Ok(true);
        }
    }
    Ok(false)
}

/// Whether a row with these sets and this entry gives a line without literals: it matches everything, and the column that its
/// entry names, if it names one, has one value.
#[tactic(auto, using(crate::proofs::Bare::bare_never, crate::proofs::Bare::bare_all))]
fn is_bare(alloc: Global, frame: &Frame, sets: &[PackedSet], entry: &Entry) -> Result<bool, Memory>
    requires frame { IsFrame frame.now }
    requires sets { FitRow frame.now.columns sets.now }
    requires entry { FitEntry frame.now.columns entry.now }
    ensures { IfOk result (λ b. b ≡ is_bare frame.now.columns sets.now entry.now) }
{
    if !is_single(frame.columns.as_slice(), entry) {
        return Ok(false);
    }
    matches_all(alloc, frame, sets)
}

/// Whether the column that the entry names, if it names one, has one value.
fn is_single(columns: &[Column], entry: &Entry) -> bool
    requires { FitEntry columns.now entry.now }
    ensures { result ≡ is_single columns.now entry.now }
{
    match entry {
        Entry::Set(_) => true,
        Entry::Same(place) => columns[*place as usize].count == 1,
    }
}

/// Whether a row with these sets matches everything.
#[tactic(auto, using(crate::proofs::Possible::bare_from_cube))]
fn matches_all(alloc: Global, frame: &Frame, sets: &[PackedSet]) -> Result<bool, Memory>
    requires frame { IsFrame frame.now }
    requires sets { FitRow frame.now.columns sets.now }
    ensures { IfOk result (λ b. b ≡ matches_all frame.now.columns sets.now) }
{
    let cube = frame.cube(alloc, sets)?;
    match &cube {
        Some(cube) => Ok(cube.len() == 0),
        None => Ok(false),
    }
}

/// Whether the default can't stand as a set: it names a column, or some row takes it away and gives no value.
fn needs_mark(alloc: Global, frame: &Frame, rows: &[Row], default: &Entry) -> Result<bool, Memory>
    requires frame { IsFrame frame.now }
    requires rows { All (IsRow frame.now.columns) rows.now }
    ensures { IfOk result (λ b. b ≡ needs_mark frame.now.columns rows.now default.now) }
{
    match default {
        Entry::Set(_) => some_row_is_silent(alloc, frame, rows),
        Entry::Same(_) => Ok(true),
    }
}

/// Whether some row takes the default away and gives no value.
fn some_row_is_silent(alloc: Global, frame: &Frame, rows: &[Row]) -> Result<bool, Memory>
    requires frame { IsFrame frame.now }
    requires rows { All (IsRow frame.now.columns) rows.now }
    ensures { IfOk result (λ b. b ≡ list_any (is_silent frame.now.columns) rows.now) }
{
    for row in rows {
        if is_silent(alloc, frame, row)? {
            return Ok(true);
        }
    }
    Ok(false)
}

/// Whether the row takes the default away and gives no value: it matches something, and no value lies in its entry.
fn is_silent(alloc: Global, frame: &Frame, row: &Row) -> Result<bool, Memory>
    requires frame { IsFrame frame.now }
    requires row { IsRow frame.now.columns row.now }
    ensures { IfOk result (λ b. b ≡ is_silent frame.now.columns row.now) }
{
    if !says_nothing(&row.outs.as_slice()[0]) {
        return Ok(false);
    }
    matches_some(alloc, frame, row.ins.as_slice())
}

/// Whether a row with these sets matches something.
#[tactic(auto, using(crate::proofs::Possible::possible_from_cube))]
fn matches_some(alloc: Global, frame: &Frame, sets: &[PackedSet]) -> Result<bool, Memory>
    requires frame { IsFrame frame.now }
    requires sets { FitRow frame.now.columns sets.now }
    ensures { IfOk result (λ b. b ≡ not (matches_none frame.now.columns sets.now)) }
{
    let cube = frame.cube(alloc, sets)?;
    Ok(cube.is_some())
}

/// Whether no value lies in the entry.
fn says_nothing(entry: &Entry) -> bool
    ensures { result ≡ says_nothing entry.now }
{
    match entry {
        Entry::Set(out) => out.is_empty(),
        Entry::Same(_) => false,
    }
}
