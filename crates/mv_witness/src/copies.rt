ghost use Rattle.std.specs.Prelude.{◌≡◌, ◌+◌, ◌-◌, ◌<◌, ◌≤◌, true, length};
ghost use Rattle.mv_diagram.specs.Sets.{Point};
ghost use Rattle.mv_factors.specs.Families.{set_at};
ghost use Rattle.mv_witness.specs.Commons.{Copies};

use mv_factors::Factors;

/// Puts the set of a place behind the list too, if it isn't that of all points, which place 0 has.
fn copy_set(factors: &mut Factors, place: usize)
    requires place { place < length factors.old.list }
    requires room { length factors.old.list < factors.old.room }
    requires first { (p : Point) → set_at factors.old 0 p ≡ true }
    ensures { Copies factors.old factors.new place (place + 1) }
{
    if factors.same(place, 0) {
        return;
    }
    factors.add_copy(place);
}

/// Puts the sets from one place up to another behind the list too, but for those of all points: place 0 has such a one.
pub fn copy_sets(factors: &mut Factors, from: usize, to: usize)
    requires order { from ≤ to }
    requires to { to ≤ length factors.old.list }
    requires room { length factors.old.list + (to - from) ≤ factors.old.room }
    requires first { (p : Point) → set_at factors.old 0 p ≡ true }
    ensures { Copies factors.old factors.new from to }
{
    for place in from..to {
        copy_set(factors, place);
    }
}
