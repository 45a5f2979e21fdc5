ghost use Rattle.std.specs.Prelude.{◌≡◌, ◌≤◌, ◌++◌, ◌&&◌, ℕ, true, not, nat_eq, length, slice_index, IfOk, OnOk, All, AllPairs};
ghost use Rattle.mv_base.specs.Set.{meet, minus};
ghost use Rattle.mv_cover.specs.Cubes.{matches, IsCube};
ghost use Rattle.mv_cover.specs.Covering.{IsPoint};
ghost use Rattle.mv_cover.specs.Cofactors.{cubes_match};
ghost use Rattle.mv_cover.specs.Overlap.{cubes_meet};
ghost use Rattle.mv_cover.specs.Sharp.{Suits, IsCubeOver, AreDisjoint, values_left, literals_below};
ghost use Rattle.mv_cover.specs.Sharp.{with_literal, inside_of, outside_of, parts_outside, sharp_of};

use crate::count::count_of;
use crate::literal::copies_of;
use crate::{Cube, Lit, overlap};
use mv_base::{MAX_VALUES, Memory, NetId, ValueSet};
use std::alloc::Global;

impl Cube {
    /// The points of this cube that are none of `other`, as cubes without common points.
    /// `counts` has the number of values of each net by its number.
    pub fn without(&self, other: &Cube, counts: &[u16]) -> Result<Vec<Cube>, Memory>
        requires own { Suits counts.now self.now }
        requires other { Suits counts.now other.now }
        ensures list { IfOk result (λ cubes. cubes.items ≡ sharp_of counts.now self.now other.now) }
        ensures points { IfOk result (λ cubes. (at : ℕ → ℕ) → IsPoint counts.now at
            → cubes_match at cubes.items ≡ (matches at self.now && not (matches at other.now))) }
        ensures apart { IfOk result (λ cubes. AllPairs (AreDisjoint counts.now) cubes.items) }
        ensures suited { IfOk result (λ cubes. All (IsCubeOver counts.now) cubes.items) }
    {
        let mut cubes = Vec::new(self.allocator());
        if !overlap::meet(self.lits(), other.lits()) {
            cubes.push(self.copy()?)?;
            return Ok(cubes);
        }
        put_parts(&mut cubes, self, other.lits(), counts)?;
        Ok(cubes)
    }
}

/// Adds the sharp of the cube by the literals of another to the list.
pub(crate) fn put_sharp(
    list: &mut Vec<Cube>,
    cube: Cube,
    other: &[Lit],
    counts: &[u16],
) -> Result<(), Memory>
    requires cube { IsCube other.now }
    requires suited { Suits counts.now other.now }
    ensures { OnOk result (list.new.items ≡ list.old.items ++ sharp_of counts.now cube other.now) }
{
    if !overlap::meet(cube.lits(), other) {
        list.push(cube)?;
        return Ok(());
    }
    put_parts(list, &cube, other, counts)
}

/// Adds the parts of the cube outside another, given by its literals, which it meets, to the list.
fn put_parts(list: &mut Vec<Cube>, cube: &Cube, other: &[Lit], counts: &[u16]) -> Result<(), Memory>
    requires cube { IsCube other.now }
    requires suited { Suits counts.now other.now }
    requires meet { cubes_meet cube.now other.now ≡ true }
    ensures { OnOk result
        (list.new.items ≡ list.old.items ++ parts_outside counts.now cube.now other.now) }
{
    let mut lits = copies_of(cube.allocator(), cube.lits())?;
    for l in other {
        put_part(list, &mut lits, l, counts)?;
    }
    Ok(())
}

/// Adds the part of the cube outside the literal to the list, if there is one, and leaves the literals inside it.
fn put_part(
    list: &mut Vec<Cube>,
    lits: &mut Vec<Lit>,
    l: &Lit,
    counts: &[u16],
) -> Result<(), Memory>
    requires cube { IsCube lits.old.items }
    requires few { slice_index counts.now l.now.net.0 ≤ MAX_VALUES }
    ensures outside { OnOk result
        (list.new.items ≡ list.old.items ++ outside_of counts.now lits.old.items l.now) }
    ensures inside { OnOk result (lits.new.items ≡ inside_of counts.now lits.old.items l.now) }
{
    let alloc = *lits.allocator();
    let values = values_left(lits.as_slice(), l.net(), counts);
    let inside = within(alloc, l, values)?;
    let outside = outside(alloc, l, values)?;
    if outside.is_empty() {
        return put(lits, inside);
    }
    put(lits, outside)?;
    list.push(Cube::new(alloc, lits.as_slice())?)?;
    put(lits, inside)
}

/// A literal of those of the values that the literal has.
fn within(alloc: Global, l: &Lit, values: ValueSet) -> Result<Lit, Memory>
    ensures { IfOk result (λ some. some ≡ record { net = l.now.net; set = meet values l.now.set }) }
{
    Lit::new(alloc, l.net(), values.meet(l.set()))
}

/// A literal of those of the values that the literal hasn't.
fn outside(alloc: Global, l: &Lit, values: ValueSet) -> Result<Lit, Memory>
    ensures { IfOk result
        (λ rest. rest ≡ record { net = l.now.net; set = minus values l.now.set }) }
{
    Lit::new(alloc, l.net(), values.minus(l.set()))
}

/// The values that the cube leaves the net: its literal's set there, or all that the net has.
fn values_left(lits: &[Lit], net: NetId, counts: &[u16]) -> ValueSet
    requires { slice_index counts.now net.0 ≤ MAX_VALUES }
    ensures { result ≡ values_left counts.now lits.now net.0 }
{
    for l in lits {
        if l.net() == net {
            return l.set();
        }
    }
    ValueSet::full(count_of(counts, net))
}

/// Puts the literal on its net, in place of one that is there.
fn put(lits: &mut Vec<Lit>, l: Lit) -> Result<(), Memory>
    ensures { OnOk result (lits.new.items ≡ with_literal l lits.old.items) }
{
    let net = l.net();
    let place = place_of(lits.as_slice(), net);
    if place < lits.len() && is_on(&lits[place], net) {
        lits[place] = l;
        return Ok(());
    }
    lits.insert(place, l)?;
    Ok(())
}

/// Whether the literal is on the net.
fn is_on(l: &Lit, net: NetId) -> bool
    ensures { result ≡ nat_eq l.now.net.0 net.0 }
{
    l.net().0 == net.0
}

/// How many literals stand before the first on this net or a later one.
fn place_of(lits: &[Lit], net: NetId) -> usize
    ensures value { result ≡ literals_below net.0 lits.now }
    ensures within { result ≤ length lits.now }
{
    for (place, l) in lits.iter().enumerate() {
        if net.0 <= l.net().0 {
            return place;
        }
    }
    lits.len()
}
