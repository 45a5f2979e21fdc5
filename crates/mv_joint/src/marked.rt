ghost use Rattle.std.specs.Prelude.{◌≡◌, ◌&&◌, IfOk, All};
ghost use Rattle.std.specs.List.{list_all, list_any};
ghost use Rattle.mv_rows.specs.Cubes.{AreColumns, IsFrame, FitRow};
ghost use Rattle.mv_rows.specs.Flat.{says_nothing};
ghost use Rattle.mv_rows.specs.Lines.{FitEntry};
ghost use Rattle.mv_rows.specs.Marked.{matches_all};
ghost use Rattle.mv_joint.specs.Split.{all_rows};
ghost use Rattle.mv_joint.specs.Plain.{IsJointFile, is_joint_marked, is_same, stays, needs_mark};
ghost use Rattle.mv_joint.specs.Looks.{is_single, gives_bare, gives_silent};

use crate::split::is_possible;
use mv_base::{Memory, PackedSet};
use mv_design::{Entry, FileTable, Row};
use mv_rows::{Column, Frame};
use std::alloc::Global;

/// Whether the table gets a mark, as a look at its rows tells: none of them is split.
#[tactic(auto, unfolding(crate::specs::Plain::is_joint_marked))]
pub fn is_joint_marked(alloc: Global, columns: &[Column], table: &FileTable) -> Result<bool, Memory>
    requires columns { AreColumns columns.now }
    requires table { IsJointFile columns.now table.now }
    ensures { IfOk result (λ b. b ≡ is_joint_marked columns.now table.now) }
{
    let Some(entries) = &table.default else {
        return Ok(false);
    };
    let frame = Frame::new(alloc, columns)?;
    default_marked(alloc, &frame, table, entries.as_slice())
}

/// Whether the default stays, and can't stand as sets.
fn default_marked(
    alloc: Global,
    frame: &Frame,
    table: &FileTable,
    entries: &[Entry],
) -> Result<bool, Memory>
    requires frame { IsFrame frame.now }
    requires table { IsJointFile frame.now.columns table.now }
    ensures { IfOk result
        (λ b. b ≡ (stays frame.now.columns (all_rows frame.now.columns table.now.rows) entries.now
        && needs_mark (all_rows frame.now.columns table.now.rows) entries.now)) }
{
    if !stays(alloc, frame, table, entries)? {
        return Ok(false);
    }
    needs_mark(alloc, frame, table, entries)
}

/// Whether the default stays: a value lies in each of its entries, and no row gives one that matches everything.
pub fn stays(
    alloc: Global,
    frame: &Frame,
    table: &FileTable,
    entries: &[Entry],
) -> Result<bool, Memory>
    requires frame { IsFrame frame.now }
    requires table { IsJointFile frame.now.columns table.now }
    ensures { IfOk result
        (λ b. b ≡ stays frame.now.columns (all_rows frame.now.columns table.now.rows) entries.now) }
{
    if some_empty(entries) {
        return Ok(false);
    }
    let bare = some_bare(alloc, frame, table)?;
    Ok(!bare)
}

/// Whether an entry names a column, or some row matches something and says nothing of an output.
pub fn needs_mark(
    alloc: Global,
    frame: &Frame,
    table: &FileTable,
    entries: &[Entry],
) -> Result<bool, Memory>
    requires frame { IsFrame frame.now }
    requires table { IsJointFile frame.now.columns table.now }
    ensures { IfOk result
        (λ b. b ≡ needs_mark (all_rows frame.now.columns table.now.rows) entries.now) }
{
    if names_column(entries) {
        return Ok(true);
    }
    some_silent(alloc, frame, table)
}

/// Whether some row gives one that matches everything.
fn some_bare(alloc: Global, frame: &Frame, table: &FileTable) -> Result<bool, Memory>
    requires frame { IsFrame frame.now }
    requires table { IsJointFile frame.now.columns table.now }
    ensures { IfOk result (λ b. b ≡ list_any (gives_bare frame.now.columns) table.now.rows) }
{
    for row in table.rows.as_slice() {
        if gives_bare(alloc, frame, row)? {
            return Ok(true);
        }
    }
    Ok(false)
}

/// Whether the row gives one that matches everything: it does so itself, and the columns that it names have one value.
fn gives_bare(alloc: Global, frame: &Frame, row: &Row) -> Result<bool, Memory>
    requires frame { IsFrame frame.now }
    requires sets { FitRow frame.now.columns row.now.ins }
    requires entries { All (FitEntry frame.now.columns) row.now.outs }
    ensures { IfOk result (λ b. b ≡ gives_bare frame.now.columns row.now) }
{
    if !are_single(frame.columns.as_slice(), row.outs.as_slice()) {
        return Ok(false);
    }
    is_bare(alloc, frame, row.ins.as_slice())
}

/// Whether each column that an entry names has one value.
fn are_single(columns: &[Column], entries: &[Entry]) -> bool
    requires { All (FitEntry columns.now) entries.now }
    ensures { result ≡ list_all (is_single columns.now) entries.now }
{
    for entry in entries {
        if !is_single(columns, entry) {
            return false;
        }
    }
    true
}

/// Whether the column that the entry names, if it names one, has one value.
fn is_single(columns: &[Column], entry: &Entry) -> bool
    requires { FitEntry columns.now entry.now }
    ensures { result ≡ is_single columns.now entry.now }
{
    match entry {
        Entry::Set(_) => true,
        Entry::Same(place) => columns[*place as usize].count == 1,
    }
}

/// Whether a row with these sets matches everything.
#[tactic(auto, using(mv_rows::proofs::Possible::bare_from_cube))]
fn is_bare(alloc: Global, frame: &Frame, sets: &[PackedSet]) -> Result<bool, Memory>
    requires frame { IsFrame frame.now }
    requires sets { FitRow frame.now.columns sets.now }
    ensures { IfOk result (λ b. b ≡ matches_all frame.now.columns sets.now) }
{
    let cube = frame.cube(alloc, sets)?;
    match &cube {
        Some(cube) => Ok(cube.len() == 0),
        None => Ok(false),
    }
}

/// Whether some row matches something and says nothing of an output.
fn some_silent(alloc: Global, frame: &Frame, table: &FileTable) -> Result<bool, Memory>
    requires frame { IsFrame frame.now }
    requires table { IsJointFile frame.now.columns table.now }
    ensures { IfOk result (λ b. b ≡ list_any (gives_silent frame.now.columns) table.now.rows) }
{
    for row in table.rows.as_slice() {
        if gives_silent(alloc, frame, row)? {
            return Ok(true);
        }
    }
    Ok(false)
}

/// Whether the row matches something and says nothing of an output.
fn gives_silent(alloc: Global, frame: &Frame, row: &Row) -> Result<bool, Memory>
    requires frame { IsFrame frame.now }
    requires sets { FitRow frame.now.columns row.now.ins }
    ensures { IfOk result (λ b. b ≡ gives_silent frame.now.columns row.now) }
{
    if !some_empty(row.outs.as_slice()) {
        return Ok(false);
    }
    is_possible(alloc, frame, row.ins.as_slice())
}

/// Whether no value lies in some entry.
pub fn some_empty(entries: &[Entry]) -> bool
    ensures { result ≡ list_any says_nothing entries.now }
{
    entries.iter().any(is_empty)
}

/// Whether no value lies in the entry.
fn is_empty(entry: &Entry) -> bool
    ensures { result ≡ says_nothing entry.now }
{
    match entry {
        Entry::Set(out) => out.is_empty(),
        Entry::Same(_) => false,
    }
}

/// Whether an entry names a column.
fn names_column(entries: &[Entry]) -> bool
    ensures { result ≡ list_any is_same entries.now }
{
    entries.iter().any(is_same)
}

/// Whether the entry names a column.
fn is_same(entry: &Entry) -> bool
    ensures { result ≡ is_same entry.now }
{
    match entry {
        Entry::Set(_) => false,
        Entry::Same(_) => true,
    }
}
