ghost use Rattle.std.specs.Prelude.{◌≡◌, ◌∷◌, [], OnOk};
ghost use Rattle.std.specs.List.{IsDistinct};
ghost use Rattle.mv_cover.specs.Literal.{Lit as a_lit};
ghost use Rattle.mv_cover.specs.Equal.{lit_eq};
ghost use Rattle.mv_gains.specs.Holders.{IsNoted, places_in};

use indexmap::IndexMap;
use mv_base::{Items, Memory};
use mv_cover::Lit;
use std::alloc::Global;

/// The numbers of what has each literal, ascending.
#[derive(Drop)]
pub struct Holders {
    places: IndexMap<Lit, Items<usize>>,
}

/// Nothing has any literal.
pub fn no_holders(alloc: Global) -> Holders
    ensures { (l : a_lit) → places_in result l ≡ [] }
{
    Holders {
        places: IndexMap::new(alloc),
    }
}

/// The numbers of what has the literal.
pub fn places_of<'a>(holders: &'a Holders, literal: &Lit) -> &'a [usize]
    ensures { result.now ≡ places_in holders.now literal.now }
{
    match holders.places.get(literal) {
        Some(places) => places.as_slice(),
        None => &[],
    }
}

#[tactic(auto, using(crate::proofs::Noting::noted_none, crate::proofs::Noting::noted_more))]
/// Notes that what has this number has each of these literals.
pub fn note_all(
    alloc: Global,
    holders: &mut Holders,
    number: usize,
    literals: &[Lit],
) -> Result<(), Memory>
    requires { IsDistinct lit_eq literals.now }
    ensures { OnOk result
        (IsNoted literals.now number (places_in holders.old) (places_in holders.new)) }
{
    for literal in literals {
        note(alloc, holders, number, literal)?;
    }
    Ok(())
}

/// Notes that what has this number has the literal.
fn note(alloc: Global, holders: &mut Holders, number: usize, literal: &Lit) -> Result<(), Memory>
    ensures { OnOk result
        (IsNoted (literal.now ∷ []) number (places_in holders.old) (places_in holders.new)) }
{
    if let Some(places) = holders.places.get_mut(literal) {
        return Ok(places.push(number)?);
    }
    let mut places = Items::new(alloc);
    places.push(number)?;
    holders.places.insert(literal.copy()?, places)?;
    Ok(())
}
