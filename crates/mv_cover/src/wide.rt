ghost use Rattle.std.specs.Prelude.{◌≡◌, ◌≤◌, ◌<◌, ◌^◌};
ghost use Rattle.mv_base.specs.Set.{full, meet};
ghost use Rattle.mv_cover.specs.Marks.{digest, remainders, window, wide_marks};

use crate::Lit;
use crate::marks::bit;
use mv_base::{NetId, ValueSet};

/// The marks of a literal's set on a net of many values: which remainders by 8 none of its values has, and which values from 8
/// to 15 it lacks. The first tell small sets apart, and the second large ones.
pub(crate) fn wide_marks(l: &Lit) -> u64
    ensures { result ≡ wide_marks l.now.set l.now.net.0 }
{
    let had = digest(l);
    (0xffff ^ (0xffff & had)) << window(l.net())
}

/// The remainders by 8 of the values of a literal's set, and beside them its values from 8 to 15.
fn digest(l: &Lit) -> u64
    ensures { result ≡ digest l.now.set }
{
    match l.bits() {
        Some(bits) => digest_of_bits(bits),
        None => digest_of_set(l.set()),
    }
}

/// The same of a set of values below 64, with these bits.
#[tactic(auto, unfolding(crate::specs::Marks::digest, mv_base::specs::Set::minus, mv_base::specs::Set::meet, mv_base::specs::Set::join, mv_base::specs::Set::full))]
fn digest_of_bits(bits: u64) -> u64
    ensures { result ≡ digest bits }
{
    let low = bits & 0xffff;
    remainders_of_bits(bits) | low ^ (low & 0xff)
}

/// The remainders by 8 of the values of a set of values below 64: the upper half of the bits is folded on the lower three times.
#[tactic(auto, unfolding(crate::specs::Marks::folded, mv_base::specs::Set::meet, mv_base::specs::Set::join, mv_base::specs::Set::full))]
fn remainders_of_bits(bits: u64) -> u64
    ensures { result ≡ remainders 7 bits }
{
    let halves = bits & 0xffff_ffff | bits >> 32;
    let quarters = halves & 0xffff | halves >> 16;
    quarters & 0xff | quarters >> 8
}

/// The same of any set.
#[tactic(auto, unfolding(crate::specs::Marks::digest, mv_base::specs::Set::minus, mv_base::specs::Set::join, mv_base::specs::Set::full))]
fn digest_of_set(set: ValueSet) -> u64
    ensures { result ≡ digest set }
{
    let low = low_values(set);
    remainders_of_set(set) | low ^ (low & 0xff)
}

/// The values below 16.
fn low_values(set: ValueSet) -> u64
    ensures { result ≡ meet set (full 16) }
{
    match set.meet(ValueSet::full(16)).bits() {
        Some(bits) => bits,
        None => 0,
    }
}

/// The remainders by 8 of the values of any set, value by value until all are found.
fn remainders_of_set(set: ValueSet) -> u64
    ensures { result ≡ remainders 7 set }
{
    set.members_are_small();
    let mut found = 0;
    let mut rest = set;
    while let Some(value) = rest.least() {
        rest.members_are_small();
        found |= bit((value.0 % 8) as u32);
        if found == 0xff {
            return found;
        }
        rest = rest.minus(ValueSet::one(value));
    }
    found
}

/// Where the marks of the net begin: one of 4 places. Nets may share a place.
#[tactic(auto, unfolding(crate::specs::Marks::window))]
fn window(net: NetId) -> u32
    ensures value { result ≡ window net.0 }
    ensures low { result ≤ 48 }
{
    16 * (net.0 % 4)
}
