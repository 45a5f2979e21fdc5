//! The reset tables of all places.
ghost use Rattle.std.specs.Prelude.{◌≡◌, ◌+◌, ◌≤◌, ◌++◌, map, length, IfOk, OnOk};
ghost use Rattle.mv_design.specs.ByLine.{before_line};
ghost use Rattle.mv_tree.specs.Unfolded.{placed_reset, resets_in};
ghost use Rattle.mv_unfold.specs.Laid.{IsLaid, home_in, places_of};
ghost use Rattle.mv_unfold.specs.Placed.{place_at};
ghost use Rattle.mv_unfold.specs.Recent.{AreHomes};

use crate::layout::Layout;
use crate::recent::Recent;
use crate::tables::placed_table;
use mv_base::{Items, Memory};
use mv_design::FileTable;
use std::alloc::Global;

/// The reset tables of all places over the names of the whole. The line of each is how many tables stand before it there.
pub fn resets(alloc: Global, layout: &Layout<'_>) -> Result<Items<FileTable>, Memory>
    requires { IsLaid layout.now }
    ensures { IfOk result (λ resets. resets ≡ resets_in 0 (places_of layout.now)) }
{
    let mut recent = Recent::of_places(alloc, layout.models.len())?;
    let mut resets = Items::new(alloc);
    let mut at = 0;
    for number in 0..layout.models.len() {
        add_resets(alloc, layout, &mut recent, number, at, &mut resets)?;
        at = sum(at, layout.file(number).tables.len())?;
    }
    Ok(resets)
}

/// Adds the reset tables of a place behind so many tables of others.
fn add_resets(
    alloc: Global,
    layout: &Layout<'_>,
    recent: &mut Recent,
    number: usize,
    at: usize,
    resets: &mut Items<FileTable>,
) -> Result<(), Memory>
    requires laid { IsLaid layout.now }
    requires number { number ≤ length layout.now.opened.now }
    requires right { AreHomes (home_in layout.now) recent.old.slots }
    ensures right { OnOk result (AreHomes (home_in layout.now) recent.new.slots) }
    ensures is { let p =
        place_at (places_of layout.now) number in OnOk result (resets.new
        ≡ resets.old ++ map (placed_reset at p) p.model.resets) }
{
    let model = layout.file(number);
    let mut before = 0;
    let mut last = 0;
    for reset in model.resets.as_slice() {
        before = count_before(model.tables.as_slice(), before, last, reset.line);
        last = reset.line;
        let line = u32::try_from(sum(at, before)?).ok().ok_or(Memory)?;
        resets.push(placed_table(alloc, layout, recent, number, line, reset)?)?;
    }
    Ok(())
}

/// How many tables at the front stand before the line, where so many stand before the last one. It goes on from there, or starts
/// again where the line is less.
fn count_before(tables: &[FileTable], before: usize, last: u32, line: u32) -> usize
    requires { before ≡ length (before_line (λ t. t.line) last tables.now) }
    ensures { result ≡ length (before_line (λ t. t.line) line tables.now) }
{
    let start = if line < last { 0 } else { before };
    for count in start..tables.len() {
        if tables[count].line >= line {
            return count;
        }
    }
    tables.len()
}

/// The sum of two counts.
fn sum(a: usize, b: usize) -> Result<usize, Memory>
    ensures { IfOk result (λ sum. sum ≡ a + b) }
{
    a.checked_add(b).ok_or(Memory)
}
