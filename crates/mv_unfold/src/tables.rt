//! The latches and the tables of all places.
ghost use Rattle.std.specs.Prelude.{◌≡◌, ◌+◌, ◌≤◌, ◌++◌, ℕ, List, map, length, IfOk, OnOk};
ghost use Rattle.mv_tree.specs.Unfolded.{latches_in, numbered, placed_latch, renamed, tables_in};
ghost use Rattle.mv_unfold.specs.Laid.{IsLaid, home_in, places_of};
ghost use Rattle.mv_unfold.specs.Placed.{place_at};
ghost use Rattle.mv_unfold.specs.Recent.{AreHomes};

use crate::homes::{home, homes};
use crate::layout::Layout;
use crate::recent::Recent;
use mv_base::{Items, Memory};
use mv_design::{Entries, FileLatch, FileTable, copy_entries};
use std::alloc::Global;

/// The latches of all places over the names of the whole.
pub fn latches(alloc: Global, layout: &Layout<'_>) -> Result<Items<FileLatch>, Memory>
    requires { IsLaid layout.now }
    ensures { IfOk result (λ latches. latches ≡ latches_in (places_of layout.now)) }
{
    let mut recent = Recent::of_places(alloc, layout.models.len())?;
    let mut latches = Items::new(alloc);
    for number in 0..layout.models.len() {
        add_latches(alloc, layout, &mut recent, number, &mut latches)?;
    }
    Ok(latches)
}

/// Adds the latches of a place.
fn add_latches(
    alloc: Global,
    layout: &Layout<'_>,
    recent: &mut Recent,
    number: usize,
    latches: &mut Items<FileLatch>,
) -> Result<(), Memory>
    requires laid { IsLaid layout.now }
    requires number { number ≤ length layout.now.opened.now }
    requires right { AreHomes (home_in layout.now) recent.old.slots }
    ensures right { OnOk result (AreHomes (home_in layout.now) recent.new.slots) }
    ensures is { let p =
        place_at (places_of layout.now) number in OnOk result (latches.new
        ≡ latches.old ++ map (placed_latch p) p.model.latches) }
{
    for latch in layout.file(number).latches.as_slice() {
        latches.push(FileLatch {
            line: latch.line,
            input: home(alloc, layout, recent, number, &latch.input)?,
            output: home(alloc, layout, recent, number, &latch.output)?,
        })?;
    }
    Ok(())
}

/// The tables of all places over the names of the whole, by their number.
pub fn tables(alloc: Global, layout: &Layout<'_>) -> Result<Items<FileTable>, Memory>
    requires { IsLaid layout.now }
    ensures { IfOk result (λ tables. tables ≡ tables_in 0 (places_of layout.now)) }
{
    let mut recent = Recent::of_places(alloc, layout.models.len())?;
    let mut tables = Items::new(alloc);
    for number in 0..layout.models.len() {
        add_tables(alloc, layout, &mut recent, number, &mut tables)?;
    }
    Ok(tables)
}

/// Adds the tables of a place.
fn add_tables(
    alloc: Global,
    layout: &Layout<'_>,
    recent: &mut Recent,
    number: usize,
    tables: &mut Items<FileTable>,
) -> Result<(), Memory>
    requires laid { IsLaid layout.now }
    requires number { number ≤ length layout.now.opened.now }
    requires right { AreHomes (home_in layout.now) recent.old.slots }
    ensures right { OnOk result (AreHomes (home_in layout.now) recent.new.slots) }
    ensures is { let p = place_at (places_of layout.now) number in
        OnOk result
        (tables.new ≡ tables.old ++ numbered p.home (length tables.old) p.model.tables) }
{
    for table in layout.file(number).tables.as_slice() {
        let line = u32::try_from(tables.len()).ok().ok_or(Memory)?;
        tables.push(placed_table(alloc, layout, recent, number, line, table)?)?;
    }
    Ok(())
}

/// A table of a place over the names of the whole, at this line. It shares its rows.
pub fn placed_table(
    alloc: Global,
    layout: &Layout<'_>,
    recent: &mut Recent,
    number: usize,
    line: u32,
    table: &FileTable,
) -> Result<FileTable, Memory>
    requires laid { IsLaid layout.now }
    requires number { number ≤ length layout.now.opened.now }
    requires right { AreHomes (home_in layout.now) recent.old.slots }
    ensures right { OnOk result (AreHomes (home_in layout.now) recent.new.slots) }
    ensures is { IfOk result
        (λ t. t ≡ renamed (place_at (places_of layout.now) number).home line table.now) }
{
    Ok(FileTable {
        line,
        inputs: homes(alloc, layout, recent, number, table.inputs.as_slice())?,
        outputs: homes(alloc, layout, recent, number, table.outputs.as_slice())?,
        rows: table.rows.copy()?,
        default: default_copy(alloc, &table.default)?,
    })
}

/// An equal default.
fn default_copy(alloc: Global, default: &Option<Entries>) -> Result<Option<Entries>, Memory>
    ensures { IfOk result (λ copy. copy ≡ default.now) }
{
    match default {
        Some(entries) => Ok(Some(copy_entries(alloc, entries)?)),
        None => Ok(None),
    }
}
