ghost use Rattle.std.specs.Prelude.{◌≡◌, ◌+◌, ◌<◌, ◌≤◌, ◌||◌, length, OnOk, IfErr};
ghost use Rattle.mv_cover.specs.Covers.{cube_reads, lines_read};
ghost use Rattle.mv_diagram.specs.Sets.{Point, InRange};
ghost use Rattle.mv_factors.specs.Families.{Keeps, before, set_at};
ghost use Rattle.mv_relation.specs.Relations.{AreApart, IsRelationStop};
ghost use Rattle.mv_relation.specs.Placing.{line_chooses, line_holds, some_choose, some_holds};

use crate::RelationStop;
use crate::literals::put_line;
use mv_base::Memory;
use mv_cover::Line;
use mv_diagram::Literal;
use mv_factors::Factors;

/// Puts the set of the points of a line behind the list.
fn add_line(
    factors: &mut Factors,
    literals: &mut Vec<Literal>,
    line: &Line,
    vars: &[u32],
    own: u32,
    gives: bool,
) -> Result<(), RelationStop>
    requires room { length factors.old.list < factors.old.room }
    requires own { own < length factors.old.contents.counts }
    requires apart { AreApart factors.old.contents.counts vars.now own
        (cube_reads line.now.cube) }
    ensures keeps { Keeps factors.old factors.new (before (length factors.old.list)) }
    ensures front { length factors.old.list ≤ length factors.new.list }
    ensures long { OnOk result (length factors.new.list ≡ length factors.old.list + 1) }
    ensures set { OnOk result ((p : Point) → InRange factors.old.contents.counts p
        → set_at factors.new (length factors.old.list) p
        ≡ line_holds vars.now own gives p line.now) }
    ensures stop { IfErr result (IsRelationStop factors.new.contents) }
{
    let _ = line.cube.lits();
    match put_line(literals, line, vars, own, gives) {
        Ok(()) => {}
        Err(Memory) => return Err(RelationStop::Memory),
    }
    match factors.add_cube(literals.as_slice()) {
        Ok(()) => Ok(()),
        Err(stop) => Err(RelationStop::Nodes(stop)),
    }
}

/// Puts the points of the last set into the set before it, and lets the last set go.
pub fn unite_last(factors: &mut Factors, place: usize) -> Result<(), RelationStop>
    requires { length factors.old.list ≡ place + 2 }
    ensures keeps { Keeps factors.old factors.new (before place) }
    ensures front { place ≤ length factors.new.list }
    ensures long { OnOk result (length factors.new.list ≡ place + 1) }
    ensures set { OnOk result ((p : Point) → set_at factors.new place p
        ≡ (set_at factors.old place p || set_at factors.old (place + 1) p)) }
    ensures stop { IfErr result (IsRelationStop factors.new.contents) }
{
    let last = factors.len() - 1;
    match factors.unite(place, last) {
        Ok(()) => {
            factors.cut(last);
            Ok(())
        }
        Err(stop) => Err(RelationStop::Nodes(stop)),
    }
}

/// Puts the points of a line into the last set.
fn unite_line(
    factors: &mut Factors,
    literals: &mut Vec<Literal>,
    place: usize,
    line: &Line,
    vars: &[u32],
    own: u32,
    gives: bool,
) -> Result<(), RelationStop>
    requires place { length factors.old.list ≡ place + 1 }
    requires room { place + 1 < factors.old.room }
    requires own { own < length factors.old.contents.counts }
    requires apart { AreApart factors.old.contents.counts vars.now own
        (cube_reads line.now.cube) }
    ensures keeps { Keeps factors.old factors.new (before place) }
    ensures front { place ≤ length factors.new.list }
    ensures long { OnOk result (length factors.new.list ≡ place + 1) }
    ensures set { OnOk result ((p : Point) → InRange factors.old.contents.counts p
        → set_at factors.new place p
        ≡ (set_at factors.old place p || line_holds vars.now own gives p line.now)) }
    ensures stop { IfErr result (IsRelationStop factors.new.contents) }
{
    match add_line(factors, literals, line, vars, own, gives) {
        Ok(()) => {}
        Err(stop) => return Err(stop),
    }
    unite_last(factors, place)
}

/// Puts the points of lines into the last set.
fn unite_lines(
    factors: &mut Factors,
    literals: &mut Vec<Literal>,
    place: usize,
    lines: &[Line],
    vars: &[u32],
    own: u32,
    gives: bool,
) -> Result<(), RelationStop>
    requires place { length factors.old.list ≡ place + 1 }
    requires room { place + 1 < factors.old.room }
    requires own { own < length factors.old.contents.counts }
    requires apart { AreApart factors.old.contents.counts vars.now own (lines_read lines.now) }
    ensures keeps { Keeps factors.old factors.new (before place) }
    ensures front { place ≤ length factors.new.list }
    ensures long { OnOk result (length factors.new.list ≡ place + 1) }
    ensures set { OnOk result ((p : Point) → InRange factors.old.contents.counts p
        → set_at factors.new place p
        ≡ (set_at factors.old place p || some_holds vars.now own gives p lines.now)) }
    ensures stop { IfErr result (IsRelationStop factors.new.contents) }
{
    for line in lines {
        match unite_line(factors, literals, place, line, vars, own, gives) {
            Ok(()) => {}
            Err(stop) => return Err(stop),
        }
    }
    Ok(())
}

/// Puts the set of the points of lines behind the list. There is room for one set more.
pub fn add_lines(
    factors: &mut Factors,
    literals: &mut Vec<Literal>,
    lines: &[Line],
    vars: &[u32],
    own: u32,
    gives: bool,
) -> Result<(), RelationStop>
    requires room { length factors.old.list + 1 < factors.old.room }
    requires own { own < length factors.old.contents.counts }
    requires apart { AreApart factors.old.contents.counts vars.now own (lines_read lines.now) }
    ensures keeps { Keeps factors.old factors.new (before (length factors.old.list)) }
    ensures front { length factors.old.list ≤ length factors.new.list }
    ensures long { OnOk result (length factors.new.list ≡ length factors.old.list + 1) }
    ensures set { OnOk result ((p : Point) → InRange factors.old.contents.counts p
        → set_at factors.new (length factors.old.list) p
        ≡ some_holds vars.now own gives p lines.now) }
    ensures stop { IfErr result (IsRelationStop factors.new.contents) }
{
    let place = factors.len();
    factors.add_none();
    unite_lines(factors, literals, place, lines, vars, own, gives)
}

/// Puts the points of a line's cube into the last set, if the line's output has a value.
fn choose_line(
    factors: &mut Factors,
    literals: &mut Vec<Literal>,
    place: usize,
    line: &Line,
    vars: &[u32],
    own: u32,
) -> Result<(), RelationStop>
    requires place { length factors.old.list ≡ place + 1 }
    requires room { place + 1 < factors.old.room }
    requires own { own < length factors.old.contents.counts }
    requires apart { AreApart factors.old.contents.counts vars.now own
        (cube_reads line.now.cube) }
    ensures keeps { Keeps factors.old factors.new (before place) }
    ensures front { place ≤ length factors.new.list }
    ensures long { OnOk result (length factors.new.list ≡ place + 1) }
    ensures set { OnOk result ((p : Point) → InRange factors.old.contents.counts p
        → set_at factors.new place p
        ≡ (set_at factors.old place p || line_chooses vars.now p line.now)) }
    ensures stop { IfErr result (IsRelationStop factors.new.contents) }
{
    if line.out.is_empty() {
        return Ok(());
    }
    unite_line(factors, literals, place, line, vars, own, false)
}

/// Puts the points of the cubes of those lines whose outputs have values into the last set.
fn choose_lines(
    factors: &mut Factors,
    literals: &mut Vec<Literal>,
    place: usize,
    lines: &[Line],
    vars: &[u32],
    own: u32,
) -> Result<(), RelationStop>
    requires place { length factors.old.list ≡ place + 1 }
    requires room { place + 1 < factors.old.room }
    requires own { own < length factors.old.contents.counts }
    requires apart { AreApart factors.old.contents.counts vars.now own (lines_read lines.now) }
    ensures keeps { Keeps factors.old factors.new (before place) }
    ensures front { place ≤ length factors.new.list }
    ensures long { OnOk result (length factors.new.list ≡ place + 1) }
    ensures set { OnOk result ((p : Point) → InRange factors.old.contents.counts p
        → set_at factors.new place p
        ≡ (set_at factors.old place p || some_choose vars.now p lines.now)) }
    ensures stop { IfErr result (IsRelationStop factors.new.contents) }
{
    for line in lines {
        match choose_line(factors, literals, place, line, vars, own) {
            Ok(()) => {}
            Err(stop) => return Err(stop),
        }
    }
    Ok(())
}

/// Puts the set of the points of the cubes of those lines whose outputs have values behind the list. There is room for one
/// set more.
pub fn add_choices(
    factors: &mut Factors,
    literals: &mut Vec<Literal>,
    lines: &[Line],
    vars: &[u32],
    own: u32,
) -> Result<(), RelationStop>
    requires room { length factors.old.list + 1 < factors.old.room }
    requires own { own < length factors.old.contents.counts }
    requires apart { AreApart factors.old.contents.counts vars.now own (lines_read lines.now) }
    ensures keeps { Keeps factors.old factors.new (before (length factors.old.list)) }
    ensures front { length factors.old.list ≤ length factors.new.list }
    ensures long { OnOk result (length factors.new.list ≡ length factors.old.list + 1) }
    ensures set { OnOk result ((p : Point) → InRange factors.old.contents.counts p
        → set_at factors.new (length factors.old.list) p ≡ some_choose vars.now p lines.now) }
    ensures stop { IfErr result (IsRelationStop factors.new.contents) }
{
    let place = factors.len();
    factors.add_none();
    choose_lines(factors, literals, place, lines, vars, own)
}
