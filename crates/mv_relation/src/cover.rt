ghost use Rattle.std.specs.Prelude.{◌≡◌, ◌+◌, ◌<◌, ◌≤◌, ◌&&◌, ◌||◌, false, not, length, OnOk, IfErr};
ghost use Rattle.mv_base.specs.Set.{has};
ghost use Rattle.mv_cover.specs.Covers.{allowed, cover_reads, lines_read};
ghost use Rattle.mv_diagram.specs.Sets.{Point, InRange};
ghost use Rattle.mv_factors.specs.Families.{Keeps, before, set_at};
ghost use Rattle.mv_relation.specs.Relations.{AreApart, IsRelationStop, assigned, chooses, has_some};
ghost use Rattle.mv_relation.specs.Placing.{some_choose, some_holds};

use crate::RelationStop;
use crate::lines::{add_choices, add_lines, unite_last};
use mv_base::PackedSet;
use mv_cover::{Cover, Line};
use mv_diagram::Literal;
use mv_factors::Factors;
use std::alloc::Global;

/// Leaves in the last set, of those points that aren't in it, the ones at which this variable has a value of the set.
fn turn_with(
    factors: &mut Factors,
    place: usize,
    own: u32,
    out: &PackedSet,
) -> Result<(), RelationStop>
    requires place { length factors.old.list ≡ place + 1 }
    requires room { place + 1 < factors.old.room }
    requires own { own < length factors.old.contents.counts }
    ensures keeps { Keeps factors.old factors.new (before place) }
    ensures front { place ≤ length factors.new.list }
    ensures long { OnOk result (length factors.new.list ≡ place + 1) }
    ensures set { OnOk result ((p : Point) → InRange factors.old.contents.counts p
        → set_at factors.new place p
        ≡ (not (set_at factors.old place p) && has out.now (p own))) }
    ensures stop { IfErr result (IsRelationStop factors.new.contents) }
{
    match factors.complement(place) {
        Ok(()) => {}
        Err(stop) => return Err(RelationStop::Nodes(stop)),
    }
    meet_with(factors, place, own, out)
}

/// Leaves in the last set the points at which this variable has a value of the set.
fn meet_with(
    factors: &mut Factors,
    place: usize,
    own: u32,
    out: &PackedSet,
) -> Result<(), RelationStop>
    requires place { length factors.old.list ≡ place + 1 }
    requires room { place + 1 < factors.old.room }
    requires own { own < length factors.old.contents.counts }
    ensures keeps { Keeps factors.old factors.new (before place) }
    ensures front { place ≤ length factors.new.list }
    ensures long { OnOk result (length factors.new.list ≡ place + 1) }
    ensures set { OnOk result ((p : Point) → InRange factors.old.contents.counts p
        → set_at factors.new place p ≡ (set_at factors.old place p && has out.now (p own))) }
    ensures stop { IfErr result (IsRelationStop factors.new.contents) }
{
    let last = factors.len();
    match add_output(factors, own, out) {
        Ok(()) => {}
        Err(stop) => return Err(stop),
    }
    match factors.meet(place, last) {
        Ok(()) => {
            factors.cut(last);
            Ok(())
        }
        Err(stop) => Err(RelationStop::Nodes(stop)),
    }
}

/// Puts the set of the points at which this variable has a value of the set behind the list.
fn add_output(factors: &mut Factors, own: u32, out: &PackedSet) -> Result<(), RelationStop>
    requires room { length factors.old.list < factors.old.room }
    requires own { own < length factors.old.contents.counts }
    ensures keeps { Keeps factors.old factors.new (before (length factors.old.list)) }
    ensures front { length factors.old.list ≤ length factors.new.list }
    ensures long { OnOk result (length factors.new.list ≡ length factors.old.list + 1) }
    ensures set { OnOk result ((p : Point) → InRange factors.old.contents.counts p
        → set_at factors.new (length factors.old.list) p ≡ has out.now (p own)) }
    ensures stop { IfErr result (IsRelationStop factors.new.contents) }
{
    let set = out.get();
    match factors.add_cube(&[Literal { var: own, set }]) {
        Ok(()) => Ok(()),
        Err(stop) => Err(RelationStop::Nodes(stop)),
    }
}

/// Puts the points that match no line, with a value of the default, into the last set. There is room for two sets more.
fn unite_default(
    factors: &mut Factors,
    literals: &mut Vec<Literal>,
    place: usize,
    lines: &[Line],
    out: &PackedSet,
    vars: &[u32],
    own: u32,
) -> Result<(), RelationStop>
    requires place { length factors.old.list ≡ place + 1 }
    requires room { place + 2 < factors.old.room }
    requires own { own < length factors.old.contents.counts }
    requires apart { AreApart factors.old.contents.counts vars.now own (lines_read lines.now) }
    ensures keeps { Keeps factors.old factors.new (before place) }
    ensures front { place ≤ length factors.new.list }
    ensures long { OnOk result (length factors.new.list ≡ place + 1) }
    ensures set { OnOk result ((p : Point) → InRange factors.old.contents.counts p
        → set_at factors.new place p ≡ (set_at factors.old place p
        || (not (some_holds vars.now own false p lines.now) && has out.now (p own)))) }
    ensures stop { IfErr result (IsRelationStop factors.new.contents) }
{
    let missed = factors.len();
    match add_lines(factors, literals, lines, vars, own, false) {
        Ok(()) => {}
        Err(stop) => return Err(stop),
    }
    match turn_with(factors, missed, own, out) {
        Ok(()) => {}
        Err(stop) => return Err(stop),
    }
    unite_last(factors, place)
}

/// Puts the points that match no line into the last set. There is room for two sets more.
fn unite_missed(
    factors: &mut Factors,
    literals: &mut Vec<Literal>,
    place: usize,
    lines: &[Line],
    vars: &[u32],
    own: u32,
) -> Result<(), RelationStop>
    requires place { length factors.old.list ≡ place + 1 }
    requires room { place + 2 < factors.old.room }
    requires own { own < length factors.old.contents.counts }
    requires apart { AreApart factors.old.contents.counts vars.now own (lines_read lines.now) }
    ensures keeps { Keeps factors.old factors.new (before place) }
    ensures front { place ≤ length factors.new.list }
    ensures long { OnOk result (length factors.new.list ≡ place + 1) }
    ensures set { OnOk result ((p : Point) → InRange factors.old.contents.counts p
        → set_at factors.new place p
        ≡ (set_at factors.old place p || not (some_holds vars.now own false p lines.now))) }
    ensures stop { IfErr result (IsRelationStop factors.new.contents) }
{
    let missed = factors.len();
    match add_lines(factors, literals, lines, vars, own, false) {
        Ok(()) => {}
        Err(stop) => return Err(stop),
    }
    match factors.complement(missed) {
        Ok(()) => {}
        Err(stop) => return Err(RelationStop::Nodes(stop)),
    }
    unite_last(factors, place)
}

/// Whether there is an output that has a value.
fn has_some(default: &Option<PackedSet>) -> bool
    ensures { result ≡ has_some default.now }
{
    match default {
        None => false,
        Some(out) => !out.is_empty(),
    }
}

/// Puts the set of the points at which a cover allows some value behind the list. The list `vars` has at the number of each
/// net that the cover reads the variable that has its value; none of them is the variable `own`. There is room for two sets
/// more, which are let go. Where it stops there may be more sets behind the list.
pub fn add_choice(
    factors: &mut Factors,
    alloc: Global,
    cover: &Cover,
    vars: &[u32],
    own: u32,
) -> Result<(), RelationStop>
    requires room { length factors.old.list + 2 < factors.old.room }
    requires own { own < length factors.old.contents.counts }
    requires apart { AreApart factors.old.contents.counts vars.now own (cover_reads cover.now) }
    ensures keeps { Keeps factors.old factors.new (before (length factors.old.list)) }
    ensures front { length factors.old.list ≤ length factors.new.list }
    ensures long { OnOk result (length factors.new.list ≡ length factors.old.list + 1) }
    ensures set { OnOk result ((p : Point) → InRange factors.old.contents.counts p
        → set_at factors.new (length factors.old.list) p ≡ chooses cover.now (assigned vars.now p)) }
    ensures stop { IfErr result (IsRelationStop factors.new.contents) }
{
    let mut literals = Vec::new(alloc);
    let place = factors.len();
    let lines = cover.lines.as_slice();
    match add_choices(factors, &mut literals, lines, vars, own) {
        Ok(()) => {}
        Err(stop) => return Err(stop),
    }
    if !has_some(&cover.default) {
        return Ok(());
    }
    unite_missed(factors, &mut literals, place, lines, vars, own)
}

/// Puts the set of the points at which a cover allows the value of the variable `own` behind the list. The list `vars` has at
/// the number of each net that the cover reads the variable that has its value. There is room for two sets more, which are
/// let go. Where it stops there may be more sets behind the list.
pub fn add_cover(
    factors: &mut Factors,
    alloc: Global,
    cover: &Cover,
    vars: &[u32],
    own: u32,
) -> Result<(), RelationStop>
    requires room { length factors.old.list + 2 < factors.old.room }
    requires own { own < length factors.old.contents.counts }
    requires apart { AreApart factors.old.contents.counts vars.now own (cover_reads cover.now) }
    ensures keeps { Keeps factors.old factors.new (before (length factors.old.list)) }
    ensures front { length factors.old.list ≤ length factors.new.list }
    ensures long { OnOk result (length factors.new.list ≡ length factors.old.list + 1) }
    ensures set { OnOk result ((p : Point) → InRange factors.old.contents.counts p
        → set_at factors.new (length factors.old.list) p
        ≡ allowed cover.now (assigned vars.now p) (p own)) }
    ensures stop { IfErr result (IsRelationStop factors.new.contents) }
{
    let mut literals = Vec::new(alloc);
    let place = factors.len();
    let lines = cover.lines.as_slice();
    match add_lines(factors, &mut literals, lines, vars, own, true) {
        Ok(()) => {}
        Err(stop) => return Err(stop),
    }
    match &cover.default {
        None => Ok(()),
        Some(out) => unite_default(factors, &mut literals, place, lines, out, vars, own),
    }
}
