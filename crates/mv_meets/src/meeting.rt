ghost use Rattle.std.specs.Prelude.{◌≡◌, ◌<◌, All, IfOk, MatchBool, length};
ghost use Rattle.mv_meets.specs.Meets as spec;
ghost use Rattle.mv_meets.specs.Search.{HasPair, IsOneOf, IsWith};

use crate::common::common;
use mv_base::Memory;
use mv_cover::Cube;
use std::alloc::Global;

/// Whether the cube is what the one at the place has in common with that at the other one, which is another place.
fn is_pair(
    alloc: Global,
    cubes: &[Cube],
    one: usize,
    other: usize,
    d: &Cube,
) -> Result<bool, Memory>
    requires one { one < length cubes.now }
    requires other { other < length cubes.now }
    ensures { IfOk result (λ found. MatchBool found
        (IsWith cubes.now (spec.at cubes.now one) one other d.now)
        (IsWith cubes.now (spec.at cubes.now one) one other d.now → ⊥)) }
{
    if other == one {
        return Ok(false);
    }
    let shared = common(alloc, &cubes[one], &cubes[other])?;
    let same = shared == *d;
    Ok(same)
}

/// Whether the cube is what the one at the place has in common with one at these places, another one.
fn is_with(
    alloc: Global,
    cubes: &[Cube],
    places: &[usize],
    one: usize,
    d: &Cube,
) -> Result<bool, Memory>
    requires one { one < length cubes.now }
    requires places { All (λ p. p < length cubes.now) places.now }
    ensures { IfOk result (λ found. MatchBool found
        (IsOneOf (λ p. IsWith cubes.now (spec.at cubes.now one) one p) places.now d.now)
        (IsOneOf (λ p. IsWith cubes.now (spec.at cubes.now one) one p) places.now d.now → ⊥)) }
{
    for place in places {
        if is_pair(alloc, cubes, one, *place, d)? {
            return Ok(true);
        }
    }
    Ok(false)
}

/// Whether the cube is what two cubes at these places have in common.
pub fn is_meet(alloc: Global, cubes: &[Cube], places: &[usize], d: &Cube) -> Result<bool, Memory>
    requires { All (λ p. p < length cubes.now) places.now }
    ensures { IfOk result (λ found. MatchBool found
        (HasPair cubes.now places.now places.now d.now)
        (HasPair cubes.now places.now places.now d.now → ⊥)) }
{
    for one in places {
        if is_with(alloc, cubes, places, *one, d)? {
            return Ok(true);
        }
    }
    Ok(false)
}
