ghost use Rattle.std.specs.Prelude.{◌≡◌, IfOk, IfErr, IfSome, OnOk};
ghost use Rattle.std.specs.List.{flat_map};
ghost use Rattle.mv_cover.specs.Absorb.{left_of, IsLeftOf};
ghost use Rattle.mv_composite.specs.Inside.{AreCubes};
ghost use Rattle.mv_composite.specs.Wide.{HasManyLines};
ghost use Rattle.mv_composite.specs.Takers.{HaveSameLines, IsSifted};

use crate::giver::Giver;
use crate::lightest::Lightest;
use crate::picked::Picked;
use crate::taker::Taker;
use mv_base::{MAX_COMPOSED_LINES, Memory};
use mv_cover::{Absorber, CoverStop, Line};
use std::alloc::Global;

/// How often the lines are put at most to find those that stay. The cap is higher each time, and more than three times are
/// seldom needed.
const MAX_PASSES: u32 = 1_000;

/// What is left of the lines that the giver makes of these. It may be Wide where more are left than a composite may have.
/// The lines are absorbed as they come; where far too many are left on the way, those that stay are found first, the lightest
/// before the others, and then put in order.
pub fn left_of_given<G: Giver>(
    alloc: Global,
    giver: &G,
    lines: &[Line],
) -> Result<Absorber, CoverStop>
    ensures left { IfOk result (λ left. IsLeftOf (flat_map (G.gives giver.now) lines.now) left) }
    ensures wide { IfErr result
        (λ stop. stop ≡ CoverStop.Wide
        → HasManyLines (left_of (flat_map (G.gives giver.now) lines.now))) }
{
    let mut lightest = Lightest::new(alloc, Absorber::new(alloc));
    put_lines(&mut lightest, giver, lines)?;
    if lightest.cap.is_none() {
        return Ok(lightest.left);
    }
    let left = match sifted(alloc, giver, lines, lightest) {
        Ok(left) => left,
        Err(stop) => return Err(stop),
    };
    Ok(in_order(alloc, giver, lines, left)?)
}

/// The lines that are left of those given, in any order, or None where that takes too many passes. The lightest of them are
/// known already.
fn sifted<G: Giver>(
    alloc: Global,
    giver: &G,
    lines: &[Line],
    mut lightest: Lightest,
) -> Result<Option<Absorber>, CoverStop>
    requires cubes { AreCubes (flat_map (G.gives giver.now) lines.now) }
    requires begun { IsSifted
        (flat_map (G.gives giver.now) lines.now) lightest.left lightest.cap }
    ensures same { IfOk result
        (λ left. IfSome left
        (λ left. HaveSameLines left (left_of (flat_map (G.gives giver.now) lines.now)))) }
    ensures wide { IfErr result
        (λ stop. stop ≡ CoverStop.Wide
        → HasManyLines (left_of (flat_map (G.gives giver.now) lines.now))) }
{
    for _pass in 0..MAX_PASSES {
        if lightest.cap.is_none() {
            return Ok(Some(lightest.left));
        }
        if lightest.left.len() as u64 > MAX_COMPOSED_LINES {
            return Err(CoverStop::Wide);
        }
        lightest = Lightest::new(alloc, lightest.left);
        put_lines(&mut lightest, giver, lines)?;
    }
    Ok(None)
}

/// The lines that are left of those given, in order. These are the same in any order, if they are known.
fn in_order<G: Giver>(
    alloc: Global,
    giver: &G,
    lines: &[Line],
    left: Option<Absorber>,
) -> Result<Absorber, Memory>
    requires cubes { AreCubes (flat_map (G.gives giver.now) lines.now) }
    requires same { IfSome left
        (λ left. HaveSameLines left (left_of (flat_map (G.gives giver.now) lines.now))) }
    ensures { IfOk result (λ left. IsLeftOf (flat_map (G.gives giver.now) lines.now) left) }
{
    let Some(left) = left else {
        let mut all = Absorber::new(alloc);
        put_lines(&mut all, giver, lines)?;
        return Ok(all);
    };
    let mut picked = Picked::new(alloc, left.finish(None).lines.as_slice())?;
    put_lines(&mut picked, giver, lines)?;
    Ok(picked.left)
}

/// Puts what the giver makes of each of the lines.
fn put_lines<T: Taker, G: Giver>(taker: &mut T, giver: &G, lines: &[Line]) -> Result<(), Memory>
    ensures { OnOk result
        (T.takes taker.old taker.new (flat_map (G.gives giver.now) lines.now)) }
{
    for line in lines {
        giver.give(line, taker)?;
    }
    Ok(())
}
