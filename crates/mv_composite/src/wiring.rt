ghost use Rattle.std.specs.Prelude.{◌≡◌, ◌∷◌, [], false, nat_eq, ℕ, List, IfOk, OnOk, slice_index};
ghost use Rattle.mv_cover.specs.Cubes.{IsCube};
ghost use Rattle.mv_composite.specs.Inside.{AreCubes, IsCoverOver};
ghost use Rattle.mv_composite.specs.Wired.{line_wired, wired, AllowsAlong, ReadsAlong};
ghost use Rattle.mv_composite.specs.Puts.{Puts};
ghost use Rattle.mv_base.specs.Set.{empty};
ghost use Rattle.mv_cover.specs.Absorb.{IsLeftOf};
ghost use Rattle.std.specs.List.{flat_map};

use crate::literal::{literal_on, without};
use crate::put::put_met;
use crate::taker::Taker;
use mv_base::{Memory, NetId, ValueSet};
use mv_cover::{Absorber, Cover, Cube, Line, Lit};
use std::alloc::Global;

/// The cover in which the second net is read in place of the first, which has as many values. A literal on it is met with one
/// that is there, a line whose two sets don't meet goes, and the lines are absorbed as they come.
pub fn wire(alloc: Global, net: NetId, into: NetId, cover: &Cover) -> Result<Cover, Memory>
    ensures cover { IfOk result (λ new. new ≡ wired net.0 into.0 cover.now) }
    ensures means { IfOk result (λ new. AllowsAlong net.0 into.0 cover.now new) }
    ensures formed { (counts : List ℕ) (values : ℕ)
        → slice_index counts net.0 ≡ slice_index counts into.0
        → IsCoverOver counts values cover.now → IfOk result (λ new. IsCoverOver counts values new) }
    ensures reads { IfOk result (λ new. ReadsAlong net.0 into.0 cover.now new) }
{
    match rewired(alloc, net, into, cover) {
        Ok(new) => Ok(new),
        Err(stop) => Err(stop),
    }
}

/// The cover in which the second net is read in place of the first.
fn rewired(alloc: Global, net: NetId, into: NetId, cover: &Cover) -> Result<Cover, Memory>
    ensures cover { IfOk result (λ new. new ≡ wired net.0 into.0 cover.now) }
    ensures formed { OnOk result (AreCubes cover.now.lines) }
{
    let left = given(alloc, net, into, cover.lines.as_slice())?;
    Ok(left.finish(cover.copied_default()?))
}

/// What is left of the lines that the lines give.
fn given(alloc: Global, net: NetId, into: NetId, lines: &[Line]) -> Result<Absorber, Memory>
    ensures left { IfOk result
        (λ left. IsLeftOf (flat_map (line_wired net.0 into.0) lines.now) left) }
    ensures formed { OnOk result (AreCubes lines.now) }
{
    let mut left = Absorber::new(alloc);
    for line in lines {
        put_wired(&mut left, net, into, line)?;
    }
    Ok(left)
}

/// Puts what the line gives to the lines that are left.
fn put_wired(left: &mut Absorber, net: NetId, into: NetId, line: &Line) -> Result<(), Memory>
    ensures puts { OnOk result (Puts left.old left.new (line_wired net.0 into.0 line.now)) }
    ensures formed { OnOk result (IsCube line.now.cube) }
{
    let Some(set) = literal_on(line.cube.lits(), net) else {
        left.take(line.copy()?)?;
        return Ok(());
    };
    let rest = without(&line.cube, net)?;
    let literal = one_literal(rest.allocator(), into, set)?;
    put_met(left, &rest, &literal, &line.out)?;
    Ok(())
}

/// The cube of one literal.
fn one_literal(alloc: Global, net: NetId, set: ValueSet) -> Result<Cube, Memory>
    requires { nat_eq set empty ≡ false }
    ensures { IfOk result (λ cube. cube ≡ record { net = net; set = set } ∷ []) }
{
    let literal = Lit::new(alloc, net, set)?;
    Cube::new(alloc, &[literal])
}
