ghost use Rattle.std.specs.Prelude.{◌≡◌, ◌+◌, ◌<◌, true, false, length, IfOk, IfErr, OnOk, MatchBool};
ghost use Rattle.std.specs.List.{list_all};
ghost use Rattle.mv_cover.specs.Covers.{cover_reads};
ghost use Rattle.mv_cover.specs.Literal.{Lit as a_lit};
ghost use Rattle.mv_diagram.specs.Sets.{Point, InRange};
ghost use Rattle.mv_factors.specs.Families.{Keeps, before, set_at};
ghost use Rattle.mv_graph.specs.Nets.{has_id};
ghost use Rattle.mv_relation.specs.Relations.{AreApart, IsRelationStop};
ghost use Rattle.mv_wide.specs.Judging.{AllowsOutside, IsJudged, LosesChoice, gives_some, reads_among};
ghost use Rattle.mv_wide.specs.Wides.{IsReady};

use crate::frame::Frame;
use crate::inner::is_among;
use mv_base::NetId;
use mv_cover::{Cover, Lit};
use mv_factors::Factors;
use mv_flex::Verdict;
use mv_relation::{RelationStop, add_choice, add_cover};
use std::alloc::Global;

/// Whether each literal of the cube is on one of these nets.
fn cube_reads_among(cube: &[Lit], nets: &[NetId]) -> bool
    ensures { result ≡ list_all (λ (l : a_lit). has_id nets.now l.net.0) cube.now }
{
    cube.iter().all(|literal| is_among(nets, literal.net()))
}

/// Whether each literal of the cover is on one of these nets.
fn reads_among(cover: &Cover, nets: &[NetId]) -> bool
    ensures { result ≡ reads_among nets.now cover.now }
{
    cover
        .lines
        .as_slice()
        .iter()
        .all(|line| cube_reads_among(line.cube.lits(), nets))
}

/// Whether the set of a place has a point.
fn is_some(factors: &mut Factors, place: usize) -> bool
    requires place { place < length factors.old.list }
    requires room { length factors.old.list < factors.old.room }
    ensures keeps { Keeps factors.old factors.new (before (length factors.old.list)) }
    ensures long { length factors.new.list ≡ length factors.old.list + 1 }
    ensures some { MatchBool result
        (((p : Point) → InRange factors.old.contents.counts p
        → set_at factors.old place p ≡ false) → ⊥)
        ((p : Point) → InRange factors.old.contents.counts p → set_at factors.old place p ≡ false) }
{
    let none = factors.len();
    factors.add_none();
    !factors.same(place, none)
}

/// Whether the cover allows a pair outside.
fn is_outside(
    factors: &mut Factors,
    alloc: Global,
    frame: &Frame,
    new: &Cover,
) -> Result<bool, RelationStop>
    requires ready { IsReady factors.old frame.now }
    requires apart { AreApart frame.now.counts.items frame.now.vars.items frame.now.own
        (cover_reads new.now) }
    ensures keeps { Keeps factors.old factors.new (before 1) }
    ensures first { 0 < length factors.new.list }
    ensures outside { IfOk result (λ yes. MatchBool yes
        ((AllowsOutside factors.old frame.now new.now → ⊥) → ⊥)
        (AllowsOutside factors.old frame.now new.now → ⊥)) }
    ensures stop { IfErr result (IsRelationStop factors.new.contents) }
{
    factors.cut(1);
    match add_cover(factors, alloc, new, frame.vars.as_slice(), frame.own) {
        Ok(()) => {}
        Err(stop) => return Err(stop),
    }
    match factors.meet(1, 0) {
        Ok(()) => Ok(is_some(factors, 1)),
        Err(stop) => Err(RelationStop::Nodes(stop)),
    }
}

/// Puts the points at which each of two covers allows some value behind the first set.
fn put_choices(
    factors: &mut Factors,
    alloc: Global,
    frame: &Frame,
    new: &Cover,
) -> Result<(), RelationStop>
    requires ready { IsReady factors.old frame.now }
    requires apart { AreApart frame.now.counts.items frame.now.vars.items frame.now.own
        (cover_reads new.now) }
    ensures keeps { Keeps factors.old factors.new (before 1) }
    ensures first { 0 < length factors.new.list }
    ensures long { OnOk result (length factors.new.list ≡ 3) }
    ensures old { OnOk result ((p : Point) → InRange frame.now.counts.items p
        → set_at factors.new 1 p ≡ gives_some frame.now frame.now.table p) }
    ensures new { OnOk result ((p : Point) → InRange frame.now.counts.items p
        → set_at factors.new 2 p ≡ gives_some frame.now new.now p) }
    ensures stop { IfErr result (IsRelationStop factors.new.contents) }
{
    factors.cut(1);
    let vars = frame.vars.as_slice();
    match add_choice(factors, alloc, &frame.table, vars, frame.own) {
        Ok(()) => {}
        Err(stop) => return Err(stop),
    }
    add_choice(factors, alloc, new, vars, frame.own)
}

/// Whether the cover allows nothing at some point at which the old table allows something.
fn is_lost(
    factors: &mut Factors,
    alloc: Global,
    frame: &Frame,
    new: &Cover,
) -> Result<bool, RelationStop>
    requires ready { IsReady factors.old frame.now }
    requires apart { AreApart frame.now.counts.items frame.now.vars.items frame.now.own
        (cover_reads new.now) }
    ensures keeps { Keeps factors.old factors.new (before 1) }
    ensures first { 0 < length factors.new.list }
    ensures lost { IfOk result (λ yes. MatchBool yes
        ((LosesChoice frame.now new.now → ⊥) → ⊥)
        (LosesChoice frame.now new.now → ⊥)) }
    ensures stop { IfErr result (IsRelationStop factors.new.contents) }
{
    match put_choices(factors, alloc, frame, new) {
        Ok(()) => {}
        Err(stop) => return Err(stop),
    }
    match factors.complement(2) {
        Ok(()) => {}
        Err(stop) => return Err(RelationStop::Nodes(stop)),
    }
    match factors.meet(1, 2) {
        Ok(()) => Ok(is_some(factors, 1)),
        Err(stop) => Err(RelationStop::Nodes(stop)),
    }
}

/// What becomes of the net where its table gives way to the new cover. Of a cover that reads other nets than its fanins
/// nothing is said.
pub fn judge(
    factors: &mut Factors,
    alloc: Global,
    frame: &Frame,
    new: &Cover,
) -> Result<Verdict, RelationStop>
    requires { IsReady factors.old frame.now }
    ensures ready { IsReady factors.new frame.now }
    ensures keeps { Keeps factors.old factors.new (before 1) }
    ensures verdict { IfOk result (λ verdict.
        reads_among frame.now.fanins.items new.now ≡ true
        → IsJudged factors.old frame.now new.now verdict) }
    ensures stop { IfErr result (IsRelationStop factors.new.contents) }
{
    if !reads_among(new, frame.fanins.as_slice()) {
        return Ok(Verdict::Outside);
    }
    match is_outside(factors, alloc, frame, new) {
        Ok(true) => return Ok(Verdict::Outside),
        Ok(false) => {}
        Err(stop) => return Err(stop),
    }
    match is_lost(factors, alloc, frame, new) {
        Ok(true) => Ok(Verdict::Lost),
        Ok(false) => Ok(Verdict::Lawful),
        Err(stop) => Err(stop),
    }
}
