ghost use Rattle.std.specs.Prelude.{◌≡◌, ◌∷◌, ◌<◌, [], All, IfOk, OnOk, length};
ghost use Rattle.std.specs.List.{IsDistinct};
ghost use Rattle.mv_cover.specs.Literal.{Lit as a_lit};
ghost use Rattle.mv_cover.specs.Cubes.{IsCube};
ghost use Rattle.mv_cover.specs.Equal.{lit_eq};
ghost use Rattle.mv_meets.specs.Groups.{AreGroups, IsNoted, from_net, places_in};

use indexmap::IndexMap;
use mv_base::{Items, Memory};
use mv_cover::{Cube, Lit};
use std::alloc::Global;

/// The places of the cubes that have each literal, ascending.
#[derive(Drop)]
pub struct Groups {
    pub places: IndexMap<Lit, Items<usize>>,
}

/// The places of the cubes that have the literal.
pub fn places_of<'a>(groups: &'a Groups, literal: &Lit) -> &'a [usize]
    ensures { result.now ≡ places_in groups.now literal.now }
{
    match groups.places.get(literal) {
        Some(places) => places.as_slice(),
        None => &[],
    }
}

/// Those of the cubes at these places that have each literal on a net from the low one on.
pub fn grouped(alloc: Global, cubes: &[Cube], places: &[usize], low: u64) -> Result<Groups, Memory>
    requires { All (λ p. p < length cubes.now) places.now }
    ensures { IfOk result (λ groups. AreGroups cubes.now low places.now (places_in groups)) }
{
    let mut groups = no_groups(alloc);
    for place in places {
        note_all(alloc, &mut groups, *place, cubes[*place].lits(), low)?;
    }
    Ok(groups)
}

/// No cube has any literal.
fn no_groups(alloc: Global) -> Groups
    ensures { (l : a_lit) → places_in result l ≡ [] }
{
    Groups {
        places: IndexMap::new(alloc),
    }
}

/// Notes that the cube at the place has each of these literals that is on a net from the low one on.
fn note_all(
    alloc: Global,
    groups: &mut Groups,
    place: usize,
    literals: &[Lit],
    low: u64,
) -> Result<(), Memory>
    requires { IsDistinct lit_eq literals.now }
    ensures { OnOk result
        (IsNoted (from_net low literals.now) place (places_in groups.old) (places_in groups.new)) }
{
    for literal in literals {
        if literal.net().0 as u64 >= low {
            note(alloc, groups, place, literal)?;
        }
    }
    Ok(())
}

/// Notes that the cube at the place has the literal.
fn note(alloc: Global, groups: &mut Groups, place: usize, literal: &Lit) -> Result<(), Memory>
    ensures { OnOk result
        (IsNoted (literal.now ∷ []) place (places_in groups.old) (places_in groups.new)) }
{
    if let Some(places) = groups.places.get_mut(literal) {
        return Ok(places.push(place)?);
    }
    let mut places = Items::new(alloc);
    places.push(place)?;
    groups.places.insert(literal.copy()?, places)?;
    Ok(())
}
