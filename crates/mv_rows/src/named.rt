//! Rows whose entry names a column. Such a row has a line for each value of the column, so rows of one cube are made lines of once.
ghost use Rattle.std.specs.Prelude.{◌≡◌, ◌∷◌, [], OnOk, IfErr, IfOk, length};
ghost use Rattle.mv_rows.specs.Cubes.{IsFrame};
ghost use Rattle.mv_rows.specs.Flat.{only_entry, IsRow};
ghost use Rattle.mv_rows.specs.Lines.{EntryLines};
ghost use Rattle.mv_rows.specs.Named.{HaveLinesAmong};
ghost use Rattle.mv_rows.specs.Once.{PutsRows, StopsRows};
ghost use Rattle.mv_design.specs.declared.table.Entry.TheVariants.{Same};

use crate::column::Frame;
use crate::line_set::LineSet;
use crate::stop::RowStop;
use indexmap::IndexSet;
use mv_base::Memory;
use mv_cover::{Cube, Line};
use mv_design::{Entries, Entry, Row};
use std::alloc::Global;
use std::hash::{Hash, Hasher};

/// A row whose entry names a column: its cube, and the column's place. They tell its lines.
#[derive(Drop)]
pub struct NamedRow {
    pub cube: Cube,
    pub place: u32,
}

impl PartialEq for NamedRow {
    ghost use Rattle.mv_rows.specs.Named.{named_eq, named_eq-partial_equiv};

    ghost eq = { named_eq };

    ghost laws = { named_eq-partial_equiv };

    fn eq(&self, other: &NamedRow) -> bool {
        self.cube == other.cube && self.place == other.place
    }
}

impl Eq for NamedRow {
    ghost use Rattle.mv_rows.specs.Named.{named_eq-equiv};

    ghost laws = { named_eq-equiv };
}

impl Hash for NamedRow {
    ghost use Rattle.mv_rows.specs.Named.{named_fed, named_fed-same};

    ghost hash_input = { named_fed };

    ghost respects_eq = { named_fed-same };

    fn hash<H: Hasher>(&self, state: &mut H) {
        self.cube.hash(state);
        self.place.hash(state);
    }
}

/// Adds the lines of a row. `named` are rows whose lines stand in the set already.
pub fn put_row(
    set: &mut LineSet,
    named: &mut IndexSet<NamedRow>,
    alloc: Global,
    frame: &Frame,
    row: &Row,
) -> Result<(), RowStop>
    requires frame { IsFrame frame.now }
    requires row { IsRow frame.now.columns row.now }
    requires named { HaveLinesAmong frame.now.columns set.old.lines.keys named.old.keys }
    ensures rows { OnOk result (PutsRows frame.now.columns (row.now ∷ []) set.old set.new) }
    ensures named { OnOk result
        (HaveLinesAmong frame.now.columns set.new.lines.keys named.new.keys) }
    ensures stop { IfErr result
        (λ stop. StopsRows frame.now.columns (row.now ∷ []) set.old stop) }
{
    match only(&row.outs) {
        Entry::Set(_) => put_lines(set, alloc, frame, row),
        Entry::Same(place) => put_named(set, named, alloc, frame, row, *place),
    }
}

/// Adds the lines of a row whose entry names the column at the place, unless they stand there already.
fn put_named(
    set: &mut LineSet,
    named: &mut IndexSet<NamedRow>,
    alloc: Global,
    frame: &Frame,
    row: &Row,
    place: u32,
) -> Result<(), RowStop>
    requires frame { IsFrame frame.now }
    requires row { IsRow frame.now.columns row.now }
    requires entry { only_entry row.now.outs ≡ Same place }
    requires named { HaveLinesAmong frame.now.columns set.old.lines.keys named.old.keys }
    ensures rows { OnOk result (PutsRows frame.now.columns (row.now ∷ []) set.old set.new) }
    ensures named { OnOk result
        (HaveLinesAmong frame.now.columns set.new.lines.keys named.new.keys) }
    ensures stop { IfErr result
        (λ stop. StopsRows frame.now.columns (row.now ∷ []) set.old stop) }
{
    let Some(cube) = frame.cube(alloc, row.ins.as_slice())? else {
        return Ok(());
    };
    let key = NamedRow { cube, place };
    if named.contains(&key) {
        return Ok(());
    }
    match put_lines(set, alloc, frame, row) {
        Ok(()) => {}
        Err(stop) => return Err(stop),
    }
    match named.insert(key) {
        Ok(_new) => Ok(()),
        Err(_refused) => Err(RowStop::Memory),
    }
}

/// Adds the lines of a row that are new.
fn put_lines(set: &mut LineSet, alloc: Global, frame: &Frame, row: &Row) -> Result<(), RowStop>
    requires frame { IsFrame frame.now }
    requires row { IsRow frame.now.columns row.now }
    ensures rows { OnOk result (PutsRows frame.now.columns (row.now ∷ []) set.old set.new) }
    ensures stop { IfErr result
        (λ stop. StopsRows frame.now.columns (row.now ∷ []) set.old stop) }
{
    let here = one_row(alloc, frame, row)?;
    set.put_all(here)
}

/// The lines of one row.
fn one_row(alloc: Global, frame: &Frame, row: &Row) -> Result<Vec<Line>, Memory>
    requires frame { IsFrame frame.now }
    requires row { IsRow frame.now.columns row.now }
    ensures { IfOk result
        (λ lines. EntryLines frame.now.columns row.now.ins (only_entry row.now.outs) lines.items) }
{
    let mut lines = Vec::new(alloc);
    frame.put_row(&mut lines, alloc, row.ins.as_slice(), only(&row.outs))?;
    Ok(lines)
}

/// The only entry.
pub fn only(entries: &Entries) -> &Entry
    requires { length entries.now ≡ 1 }
    ensures { result.now ≡ only_entry entries.now }
{
    &entries.as_slice()[0]
}
