ghost use Rattle.std.specs.Prelude.{◌≡◌, ◌<◌, ◌≤◌, ◌&&◌, true, length, IfErr, IfNone, IfSome, OnOk, OnErr};
ghost use Rattle.mv_diagram.specs.Sets.{Point};
ghost use Rattle.mv_diagram.specs.Diagrams.{HasNoRoom};
ghost use Rattle.mv_diagram.specs.Parts.{no_variable};
ghost use Rattle.mv_factors.specs.Families.{Keeps, but_both, everywhere, set_at};
ghost use Rattle.mv_factors.specs.Functions.{IsFunction, is_this};
ghost use Rattle.mv_factors.specs.Seen.{AreFreeBut, AreSeen, Goes, HasRows, IsAlone, IsJoined, IsLast, IsNowhere, IsPut, Joins, KeepsWork, Puts, Sees};

use crate::Factors;
use crate::seen::{Work, fill, leave_out, may_depend, meet};
use mv_diagram::Nodes;

/// The place of the smallest set from a place on that may depend on the variable.
fn smallest(work: &Work, from: usize, count: usize, var: u32) -> Option<usize>
    requires { count ≤ length work.now.rows.items }
    ensures some { IfSome result (λ place. (from ≤ place) × (place < count)) }
    ensures none { IfNone result (IsNowhere work.now.rows.items from count var) }
{
    let mut least: Option<usize> = None;
    let mut nodes = u32::MAX;
    for place in from..count {
        if may_depend(work.rows.as_slice(), place, var) {
            let size = work.sizes.as_slice().get(place).copied().unwrap_or(0);
            if least.is_none() || size < nodes {
                least = Some(place);
                nodes = size;
            }
        }
    }
    least
}

/// The last place but one whose set may depend on the variable.
fn last_other(work: &Work, from: usize, count: usize, var: u32, place: usize) -> Option<usize>
    requires rows { count ≤ length work.now.rows.items }
    requires first { from ≤ count }
    ensures some { IfSome result (IsLast work.now.rows.items from count var place) }
    ensures none { IfNone result (IsAlone work.now.rows.items from count var place) }
{
    let mut last = None;
    for other in from..count {
        if other != place && may_depend(work.rows.as_slice(), other, var) {
            last = Some(other);
        }
    }
    last
}

/// Joins the set of another place to that of a place. The set of the other place has all points then.
fn join(work: &mut Work, factors: &mut Factors, place: usize, other: usize) -> Result<(), Nodes>
    requires place { place < length factors.old.list }
    requires other { other < length factors.old.list }
    requires apart { other ≡ place → ⊥ }
    requires rows { HasRows work.old.rows.items (length factors.old.list)
        (length factors.old.contents.counts) }
    ensures sees { Sees factors.old factors.new work.old.rows.items work.new.rows.items }
    ensures keeps { Keeps factors.old factors.new (but_both place other) }
    ensures set { OnOk result ((p : Point) → set_at factors.new place p
        ≡ (set_at factors.old place p && set_at factors.old other p)) }
    ensures all { OnOk result ((p : Point) → set_at factors.new other p ≡ true) }
    ensures same { OnErr result (Keeps factors.old factors.new everywhere) }
    ensures full { IfErr result (HasNoRoom factors.new.contents) }
    ensures work { KeepsWork work.old work.new }
{
    match meet(work, factors, place, other) {
        Ok(()) => {
            fill(work, factors, other);
            Ok(())
        }
        Err(stop) => Err(stop),
    }
}

/// Joins the set of another place to that of a place, if it may depend on the variable and isn't the same.
fn join_if(
    work: &mut Work,
    factors: &mut Factors,
    from: usize,
    var: u32,
    place: usize,
    other: usize,
) -> Result<(), Nodes>
    requires place { place < length factors.old.list }
    requires other { other < length factors.old.list }
    requires first { from ≤ place }
    requires later { from ≤ other }
    requires rows { HasRows work.old.rows.items (length factors.old.list)
        (length factors.old.contents.counts) }
    requires seen { AreSeen factors.old from work.old.rows.items }
    ensures ok { OnOk result (IsJoined factors.old factors.new work.old.rows.items
        work.new.rows.items from var place other) }
    ensures err { OnErr result (Goes factors.old factors.new work.old.rows.items
        work.new.rows.items from no_variable) }
    ensures full { IfErr result (HasNoRoom factors.new.contents) }
    ensures work { KeepsWork work.old work.new }
{
    if other == place {
        return Ok(());
    }
    if !may_depend(work.rows.as_slice(), other, var) {
        return Ok(());
    }
    join(work, factors, place, other)
}

/// Joins the sets before the last that may depend on the variable.
fn join_before(
    work: &mut Work,
    factors: &mut Factors,
    from: usize,
    last: usize,
    var: u32,
    place: usize,
) -> Result<(), Nodes>
    requires place { place < length factors.old.list }
    requires last { last < length factors.old.list }
    requires first { from ≤ place }
    requires later { from ≤ last }
    requires rows { HasRows work.old.rows.items (length factors.old.list)
        (length factors.old.contents.counts) }
    requires seen { AreSeen factors.old from work.old.rows.items }
    ensures ok { OnOk result (Joins factors.old factors.new work.old.rows.items
        work.new.rows.items from var last place) }
    ensures err { OnErr result (Goes factors.old factors.new work.old.rows.items
        work.new.rows.items from no_variable) }
    ensures full { IfErr result (HasNoRoom factors.new.contents) }
    ensures work { KeepsWork work.old work.new }
{
    for other in from..last {
        match join_if(work, factors, from, var, place, other) {
            Ok(()) => {}
            Err(stop) => return Err(stop),
        }
    }
    Ok(())
}

/// Eliminates a variable on which one set alone may depend.
fn leave_out_alone(
    work: &mut Work,
    factors: &mut Factors,
    from: usize,
    var: u32,
    place: usize,
) -> Result<(), Nodes>
    requires place { place < length factors.old.list }
    requires first { from ≤ place }
    requires var { var < length factors.old.contents.counts }
    requires rows { HasRows work.old.rows.items (length factors.old.list)
        (length factors.old.contents.counts) }
    requires free { AreFreeBut factors.old from var place place }
    ensures ok { OnOk result (Goes factors.old factors.new work.old.rows.items
        work.new.rows.items from (is_this var)) }
    ensures err { OnErr result (Goes factors.old factors.new work.old.rows.items
        work.new.rows.items from no_variable) }
    ensures full { IfErr result (HasNoRoom factors.new.contents) }
    ensures work { KeepsWork work.old work.new }
{
    leave_out(work, factors, place, place, var)
}

/// Eliminates a variable on which two sets alone may depend. The second has all points then.
fn leave_out_two(
    work: &mut Work,
    factors: &mut Factors,
    from: usize,
    var: u32,
    place: usize,
    last: usize,
) -> Result<(), Nodes>
    requires place { place < length factors.old.list }
    requires last { last < length factors.old.list }
    requires apart { last ≡ place → ⊥ }
    requires first { from ≤ place }
    requires later { from ≤ last }
    requires var { var < length factors.old.contents.counts }
    requires rows { HasRows work.old.rows.items (length factors.old.list)
        (length factors.old.contents.counts) }
    requires free { AreFreeBut factors.old from var place last }
    ensures ok { OnOk result (Goes factors.old factors.new work.old.rows.items
        work.new.rows.items from (is_this var)) }
    ensures err { OnErr result (Goes factors.old factors.new work.old.rows.items
        work.new.rows.items from no_variable) }
    ensures full { IfErr result (HasNoRoom factors.new.contents) }
    ensures work { KeepsWork work.old work.new }
{
    match leave_out(work, factors, place, last, var) {
        Ok(()) => {
            fill(work, factors, last);
            Ok(())
        }
        Err(stop) => Err(stop),
    }
}

/// Eliminates a variable: all sets that may depend on it become one.
pub fn join_all(work: &mut Work, factors: &mut Factors, from: usize, var: u32) -> Result<(), Nodes>
    requires var { var < length factors.old.contents.counts }
    requires rows { HasRows work.old.rows.items (length factors.old.list)
        (length factors.old.contents.counts) }
    requires seen { AreSeen factors.old from work.old.rows.items }
    ensures ok { OnOk result (Goes factors.old factors.new work.old.rows.items
        work.new.rows.items from (is_this var)) }
    ensures err { OnErr result (Goes factors.old factors.new work.old.rows.items
        work.new.rows.items from no_variable) }
    ensures full { IfErr result (HasNoRoom factors.new.contents) }
    ensures work { KeepsWork work.old work.new }
{
    let count = factors.len();
    let Some(place) = smallest(work, from, count, var) else {
        return Ok(());
    };
    let Some(last) = last_other(work, from, count, var, place) else {
        return leave_out_alone(work, factors, from, var, place);
    };
    match join_before(work, factors, from, last, var, place) {
        Ok(()) => {}
        Err(stop) => return Err(stop),
    }
    leave_out_two(work, factors, from, var, place, last)
}

/// Puts a set that gives the variable its value into that of a place, if that may depend on the variable and isn't the
/// same.
fn put_if(
    work: &mut Work,
    factors: &mut Factors,
    from: usize,
    var: u32,
    given: usize,
    place: usize,
) -> Result<(), Nodes>
    requires given { given < length factors.old.list }
    requires place { place < length factors.old.list }
    requires first { from ≤ given }
    requires later { from ≤ place }
    requires var { var < length factors.old.contents.counts }
    requires function { IsFunction factors.old.contents.counts
        (λ p. set_at factors.old given p) var }
    requires rows { HasRows work.old.rows.items (length factors.old.list)
        (length factors.old.contents.counts) }
    requires seen { AreSeen factors.old from work.old.rows.items }
    ensures ok { OnOk result (IsPut factors.old factors.new work.old.rows.items
        work.new.rows.items from var given place) }
    ensures err { OnErr result (Goes factors.old factors.new work.old.rows.items
        work.new.rows.items from no_variable) }
    ensures full { IfErr result (HasNoRoom factors.new.contents) }
    ensures work { KeepsWork work.old work.new }
{
    if place == given {
        return Ok(());
    }
    if !may_depend(work.rows.as_slice(), place, var) {
        return Ok(());
    }
    leave_out(work, factors, place, given, var)
}

/// Puts a set that gives the variable its value into each other set that may depend on the variable, by itself.
fn put_into_each(
    work: &mut Work,
    factors: &mut Factors,
    from: usize,
    var: u32,
    given: usize,
) -> Result<(), Nodes>
    requires first { from ≤ given }
    requires given { given < length factors.old.list }
    requires var { var < length factors.old.contents.counts }
    requires function { IsFunction factors.old.contents.counts
        (λ p. set_at factors.old given p) var }
    requires rows { HasRows work.old.rows.items (length factors.old.list)
        (length factors.old.contents.counts) }
    requires seen { AreSeen factors.old from work.old.rows.items }
    ensures ok { OnOk result (Puts factors.old factors.new work.old.rows.items
        work.new.rows.items from var (length factors.old.list) given) }
    ensures err { OnErr result (Goes factors.old factors.new work.old.rows.items
        work.new.rows.items from no_variable) }
    ensures full { IfErr result (HasNoRoom factors.new.contents) }
    ensures work { KeepsWork work.old work.new }
{
    for place in from..factors.len() {
        match put_if(work, factors, from, var, given, place) {
            Ok(()) => {}
            Err(stop) => return Err(stop),
        }
    }
    Ok(())
}

/// Eliminates a variable whose value a set gives: that set is put into each other one, and then it has all points.
pub fn put_away(
    work: &mut Work,
    factors: &mut Factors,
    from: usize,
    var: u32,
    given: usize,
) -> Result<(), Nodes>
    requires first { from ≤ given }
    requires given { given < length factors.old.list }
    requires var { var < length factors.old.contents.counts }
    requires function { IsFunction factors.old.contents.counts
        (λ p. set_at factors.old given p) var }
    requires rows { HasRows work.old.rows.items (length factors.old.list)
        (length factors.old.contents.counts) }
    requires seen { AreSeen factors.old from work.old.rows.items }
    ensures ok { OnOk result (Goes factors.old factors.new work.old.rows.items
        work.new.rows.items from (is_this var)) }
    ensures err { OnErr result (Goes factors.old factors.new work.old.rows.items
        work.new.rows.items from no_variable) }
    ensures full { IfErr result (HasNoRoom factors.new.contents) }
    ensures work { KeepsWork work.old work.new }
{
    match put_into_each(work, factors, from, var, given) {
        Ok(()) => {
            fill(work, factors, given);
            Ok(())
        }
        Err(stop) => Err(stop),
    }
}
