ghost use Rattle.std.specs.Prelude.{◌≡◌, ◌+◌, ◌<◌, ◌≤◌, ◌^◌, ℕ, Some, cond, nat_eq, length, IfOk, OnOk};
ghost use Rattle.std.specs.List.{list_any};
ghost use Rattle.indexmap.specs.IndexMap.{get};
ghost use Rattle.mv_cover.specs.Cubes.{IsCube};
ghost use Rattle.mv_divide.specs.Numbers as numbers;
ghost use Rattle.mv_divide.specs.Found as spec;
ghost use Rattle.mv_divide.specs.Found.{ArePlaced};

use crate::join::is_join;
use crate::number::cube_number;
use indexmap::IndexMap;
use mv_base::Memory;
use mv_cover::Cube;
use std::alloc::Global;

/// Where the cubes of a cover stand: for each number the place of the last cube that has it, and the places of those before
/// them, of which there are hardly any.
#[derive(Drop)]
pub struct Places {
    pub last: IndexMap<u128, usize>,
    pub earlier: Vec<usize>,
}

/// The places of the cubes.
pub fn places_of(alloc: Global, cubes: &[Cube]) -> Result<Places, Memory>
    ensures { IfOk result (λ p. ArePlaced cubes.now (get nat_eq p.last) p.earlier.items) }
{
    let mut places = Places {
        last: IndexMap::new(alloc),
        earlier: Vec::new(alloc),
    };
    for (place, cube) in cubes.iter().enumerate() {
        note(&mut places, cube_number(cube), place)?;
    }
    Ok(places)
}

/// Notes that a cube with the number stands at the place.
fn note(places: &mut Places, number: u128, place: usize) -> Result<(), Memory>
    ensures last { OnOk result
        ((n : ℕ) → get nat_eq places.new.last n
        ≡ cond (nat_eq number n) (Some place) (get nat_eq places.old.last n)) }
    ensures earlier { OnOk result
        (places.new.earlier.items
        ≡ spec.and_place places.old.earlier.items (get nat_eq places.old.last number)) }
{
    let before = places.last.insert(number, place)?;
    add(&mut places.earlier, before)
}

/// Adds the place, if there is one.
fn add(places: &mut Vec<usize>, place: Option<usize>) -> Result<(), Memory>
    ensures { OnOk result (places.new.items ≡ spec.and_place places.old.items place) }
{
    match place {
        Some(place) => Ok(places.push(place)?),
        None => Ok(()),
    }
}

/// Whether d, joined to s, is one of the cubes, which stand at these places; the join has the number. It takes no memory.
pub fn has_join(cubes: &[Cube], places: &Places, s: &Cube, d: &Cube, number: u128) -> bool
    requires placed { ArePlaced cubes.now (get nat_eq places.now.last) places.now.earlier.items }
    requires formed { IsCube d.now }
    requires number { number ≡ numbers.cube_number s.now + numbers.cube_number d.now }
    ensures { result ≡ spec.has_join cubes.now s.now d.now }
{
    let last = places.last.get(&number).copied();
    join_at_some(cubes, s, d, last) || join_at_any(cubes, s, d, places.earlier.as_slice())
}

/// Whether there is a place, and the cube there is d joined to s.
fn join_at_some(cubes: &[Cube], s: &Cube, d: &Cube, place: Option<usize>) -> bool
    ensures { result ≡ spec.join_at_some cubes.now s.now d.now place }
{
    match place {
        Some(place) => join_at(cubes, s, d, place),
        None => false,
    }
}

/// Whether the cube at one of the places is d joined to s.
fn join_at_any(cubes: &[Cube], s: &Cube, d: &Cube, places: &[usize]) -> bool
    ensures { result ≡ list_any (spec.join_at cubes.now s.now d.now) places.now }
{
    places.iter().any(|place| join_at(cubes, s, d, *place))
}

/// Whether the cube at the place is d joined to s.
fn join_at(cubes: &[Cube], s: &Cube, d: &Cube, place: usize) -> bool
    ensures { result ≡ spec.join_at cubes.now s.now d.now place }
{
    match cubes.get(place) {
        Some(cube) => is_join(s, d, cube),
        None => false,
    }
}
