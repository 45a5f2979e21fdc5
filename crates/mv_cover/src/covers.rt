ghost use Rattle.std.specs.Prelude.{◌≡◌, IfOk, MatchBool, MatchOption, length, nat_eq, [], true};
ghost use Rattle.std.specs.List.{list_any};
ghost use Rattle.mv_cover.specs.Covers.{cube_reads};
ghost use Rattle.mv_cover.specs.Covering.{AreWithin, CoversAll, MissesSome};
ghost use Rattle.mv_cover.specs.Cofactors.{AreCubesWithin, IsChoice, CubesCover, CubesMiss, cube_allows, cube_without, cofactor_of, cubes_of, cubes_read};

use crate::alike::alike;
use crate::busiest::busiest_net;
use crate::count::count_of;
use crate::literal::copies_of;
use crate::{Cover, Line, Lit};
use mv_base::{Items, Memory, NetId, Value, ValueSet};
use std::alloc::Global;

impl Cover {
    /// Whether the lines match every point, where `counts` has the number of values of each net by its number.
    /// Each net that the lines read has values there. It fails for want of memory alone.
    pub fn covers_all(&self, alloc: Global, counts: &[u16]) -> Result<bool, Memory>
        requires { AreWithin counts.now self.now.lines }
        ensures { IfOk result
            (λ all. MatchBool all (CoversAll counts.now self.now.lines)
            (MissesSome counts.now self.now.lines)) }
    {
        let cubes = copied_cubes(alloc, self.lines.as_slice())?;
        covers(alloc, cubes.as_slice(), counts)
    }
}

/// The cubes of the lines, as lists of literals.
fn copied_cubes(alloc: Global, lines: &[Line]) -> Result<Items<Items<Lit>>, Memory>
    ensures { IfOk result (λ cubes. cubes ≡ cubes_of lines.now) }
{
    let mut cubes = Items::new(alloc);
    for line in lines {
        let lits = copies_of(alloc, line.cube.lits())?;
        cubes.push(Items::of(lits))?;
    }
    Ok(cubes)
}

/// Whether the cubes match every point. It branches on the net that weighs most in them, and stops at the first part that
/// isn't covered. Of the values that no cube tells apart it tries one. At worst it makes a part for each way to give the
/// nets values: the question is as hard as whether a formula always holds.
fn covers(alloc: Global, cubes: &[Items<Lit>], counts: &[u16]) -> Result<bool, Memory>
    requires { AreCubesWithin counts.now cubes.now }
    ensures { IfOk result
        (λ all. MatchBool all (CubesCover counts.now cubes.now) (CubesMiss counts.now cubes.now)) }
{
    let choice = choose(alloc, cubes)?;
    let net = match choice {
        Choice::Every => return Ok(true),
        Choice::Nowhere => return Ok(false),
        Choice::On(net) => net,
    };
    let mut settled = ValueSet::empty();
    for value in 0..count_of(counts, net) {
        let value = Value(value);
        if settled.has(value) {
            continue;
        }
        let part = cofactor(alloc, cubes, net, value)?;
        if !covers(alloc, part.as_slice(), counts)? {
            return Ok(false);
        }
        settled = settled.join(alike(cubes, net, value));
    }
    Ok(true)
}

/// The cubes match everywhere or nowhere, or the net to branch on.
#[derive(Clone, Copy)]
enum Choice {
    Every,
    Nowhere,
    On(NetId),
}

/// Without cubes nothing matches, and a cube without literals matches everywhere. Else the busiest net is branched on.
fn choose(alloc: Global, cubes: &[Items<Lit>]) -> Result<Choice, Memory>
    ensures { IfOk result (λ choice. IsChoice choice cubes.now) }
{
    if cubes.is_empty() {
        return Ok(Choice::Nowhere);
    }
    if some_is_empty(cubes) {
        return Ok(Choice::Every);
    }
    match first_net(cubes[0].as_slice()) {
        None => Ok(Choice::Every),
        Some(first) => Ok(Choice::On(busiest_net(alloc, cubes, first)?)),
    }
}

/// Whether some cube has no literal, so that it holds everywhere.
fn some_is_empty(cubes: &[Items<Lit>]) -> bool
    ensures { result ≡ list_any (λ c. nat_eq (length c) 0) cubes.now }
{
    cubes.iter().any(|cube| cube.is_empty())
}

/// The net of the first literal, or None for the cube without literals.
fn first_net(cube: &[Lit]) -> Option<NetId>
    ensures { MatchOption result (cube.now ≡ []) (λ net. cube_reads cube.now net.0 ≡ true) }
{
    match cube.first() {
        None => None,
        Some(literal) => Some(literal.net()),
    }
}

/// What the cubes ask of the other nets where the net has the value.
fn cofactor(
    alloc: Global,
    cubes: &[Items<Lit>],
    net: NetId,
    value: Value,
) -> Result<Items<Items<Lit>>, Memory>
    ensures { IfOk result (λ part. part ≡ cofactor_of net.0 value.0 cubes.now) }
{
    let mut part = Items::new(alloc);
    for cube in cubes {
        if allows(cube.as_slice(), net, value) {
            part.push(cube_without(alloc, cube.as_slice(), net)?)?;
        }
    }
    Ok(part)
}

/// Whether each literal on the net has the value.
fn allows(cube: &[Lit], net: NetId, value: Value) -> bool
    ensures { result ≡ cube_allows net.0 value.0 cube.now }
{
    cube.iter().all(|l| l.net() != net || l.has(value))
}

/// The literals that aren't on the net.
fn cube_without(alloc: Global, cube: &[Lit], net: NetId) -> Result<Items<Lit>, Memory>
    ensures { IfOk result (λ rest. rest ≡ cube_without net.0 cube.now) }
{
    let mut rest = Items::new(alloc);
    for l in cube {
        if l.net() != net {
            rest.push(l.copy()?)?;
        }
    }
    Ok(rest)
}
