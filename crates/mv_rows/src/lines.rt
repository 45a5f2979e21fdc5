ghost use Rattle.std.specs.Prelude.{◌≡◌, ◌<◌, ◌≤◌, length, OnOk, OnErr};
ghost use Rattle.mv_base.specs.declared.limits.TheConstants.{MAX_VALUES};
ghost use Rattle.mv_base.specs.Set.{one};
ghost use Rattle.mv_rows.specs.Cubes.{IsFrame, FitRow};
ghost use Rattle.mv_rows.specs.Lines.{AddsLines, OneLine, EachValue, EntryLines, FitEntry, narrowed, count_at};

use crate::column::Frame;
use mv_base::{Memory, PackedSet, Value};
use mv_cover::Line;
use mv_design::{Entry, copy_sets};
use std::alloc::Global;

impl Frame {
    /// Adds the lines of a row with these sets and this entry: one with the entry's set, which may be empty, or one for
    /// each value that the row leaves the column which the entry names, ascending. There is none where no values of the
    /// nets lie in all sets. On an error the lines are as before.
    pub fn put_row(
        &self,
        lines: &mut Vec<Line>,
        alloc: Global,
        sets: &[PackedSet],
        entry: &Entry,
    ) -> Result<(), Memory>
        requires frame { IsFrame self.now }
        requires sets { FitRow self.now.columns sets.now }
        requires entry { FitEntry self.now.columns entry.now }
        ensures lines { OnOk result
            (AddsLines (EntryLines self.now.columns sets.now entry.now) lines.old.items lines.new.items) }
        ensures err { OnErr result (lines.new.items ≡ lines.old.items) }
    {
        match entry {
            Entry::Set(out) => put_line(lines, alloc, self, sets, out.copy()?),
            Entry::Same(place) => put_values(lines, alloc, self, sets, *place as usize),
        }
    }
}

/// Adds the line of a row with this output, if the row matches any values.
fn put_line(
    lines: &mut Vec<Line>,
    alloc: Global,
    frame: &Frame,
    sets: &[PackedSet],
    out: PackedSet,
) -> Result<(), Memory>
    requires frame { IsFrame frame.now }
    requires sets { FitRow frame.now.columns sets.now }
    ensures lines { OnOk result
        (AddsLines (OneLine frame.now.columns sets.now out) lines.old.items lines.new.items) }
    ensures err { OnErr result (lines.new.items ≡ lines.old.items) }
{
    let Some(cube) = frame.cube(alloc, sets)? else {
        return Ok(());
    };
    match lines.push(Line { cube, out }) {
        Ok(()) => Ok(()),
        Err(_refused) => Err(Memory),
    }
}

/// Adds a line for each value that the row leaves the column at the place.
fn put_values(
    lines: &mut Vec<Line>,
    alloc: Global,
    frame: &Frame,
    sets: &[PackedSet],
    place: usize,
) -> Result<(), Memory>
    requires frame { IsFrame frame.now }
    requires sets { FitRow frame.now.columns sets.now }
    requires place { place < length frame.now.columns }
    ensures lines { OnOk result
        (AddsLines (EachValue frame.now.columns sets.now place
        (count_at frame.now.columns place)) lines.old.items lines.new.items) }
    ensures err { OnErr result (lines.new.items ≡ lines.old.items) }
{
    let before = lines.len();
    let count = count(frame, place);
    for value in 0..count {
        match put_value(lines, alloc, frame, sets, place, Value(value)) {
            Ok(()) => {}
            Err(memory) => {
                lines.truncate(before);
                return Err(memory);
            }
        }
    }
    Ok(())
}

/// How many values the net of the column at the place has.
fn count(frame: &Frame, place: usize) -> u16
    requires frame { IsFrame frame.now }
    requires place { place < length frame.now.columns }
    ensures value { result ≡ count_at frame.now.columns place }
    ensures few { result ≤ MAX_VALUES }
{
    frame.columns.as_slice()[place].count
}

/// Adds the line of a row that has the value alone at the place, if the row matches any values with it.
fn put_value(
    lines: &mut Vec<Line>,
    alloc: Global,
    frame: &Frame,
    sets: &[PackedSet],
    place: usize,
    value: Value,
) -> Result<(), Memory>
    requires frame { IsFrame frame.now }
    requires sets { FitRow frame.now.columns sets.now }
    requires place { place < length sets.now }
    requires value { value.0 < MAX_VALUES }
    ensures lines { OnOk result
        (AddsLines (OneLine frame.now.columns (narrowed sets.now place value.0)
        (one value.0)) lines.old.items lines.new.items) }
    ensures err { OnErr result (lines.new.items ≡ lines.old.items) }
{
    let alone = PackedSet::one(alloc, value)?;
    let set = sets[place].meet(alloc, &alone)?;
    if set.is_empty() {
        return Ok(());
    }
    let mut narrowed = copy_sets(alloc, sets)?;
    narrowed.replace(place, set);
    put_line(lines, alloc, frame, narrowed.as_slice(), alone)
}
