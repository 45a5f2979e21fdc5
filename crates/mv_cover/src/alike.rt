ghost use Rattle.std.specs.Prelude.{◌≡◌, ℕ, ◌||◌, true, not, nat_eq};
ghost use Rattle.mv_base.specs.Set.{has};
ghost use Rattle.mv_cover.specs.Cofactors.{cube_allows, cofactor_of, lit_allows};

use crate::Lit;
use mv_base::{Items, MAX_VALUES, NetId, Value, ValueSet};

/// Values of the net at which the cubes ask of the other nets what they ask at this value: those that no set on the net
/// tells from it.
pub(crate) fn alike(cubes: &[Items<Lit>], net: NetId, value: Value) -> ValueSet
    ensures { (u : ℕ) → has result u ≡ true
        → cofactor_of net.0 u cubes.now ≡ cofactor_of net.0 value.0 cubes.now }
{
    let mut set = ValueSet::full(MAX_VALUES);
    for cube in cubes {
        set = alike_in(cube.as_slice(), net, value, set);
    }
    set
}

/// Those values of the set that the cube's literals on the net don't tell from this one.
fn alike_in(cube: &[Lit], net: NetId, value: Value, set: ValueSet) -> ValueSet
    ensures fewer { (u : ℕ) → has result u ≡ true → has set u ≡ true }
    ensures same { (u : ℕ) → has result u ≡ true
        → cube_allows net.0 u cube.now ≡ cube_allows net.0 value.0 cube.now }
{
    let mut left = set;
    for l in cube {
        left = narrowed(left, l, net, value);
    }
    left
}

/// Those values of the set that the literal, where it is on the net, doesn't tell from this one.
fn narrowed(set: ValueSet, l: &Lit, net: NetId, value: Value) -> ValueSet
    ensures fewer { (u : ℕ) → has result u ≡ true → has set u ≡ true }
    ensures same { (u : ℕ) → has result u ≡ true
        → lit_allows net.0 u l.now ≡ lit_allows net.0 value.0 l.now }
{
    if l.net() != net {
        set
    } else if l.has(value) {
        set.meet(l.set())
    } else {
        set.minus(l.set())
    }
}
