ghost use Rattle.std.specs.Prelude.{◌≡◌, ◌+◌, ◌-◌, ◌<◌, ◌≤◌, ◌^◌, ◌==◌, ℕ, IsTrue, ◌↔◌, ◌&&◌, ◌||◌, not, nat_lt, false, IsNone, IfSome, count_ones};
ghost use Rattle.mv_base.specs.Set as set;
ghost use Rattle.mv_base.specs.Words.{word_of};

use crate::{MAX_VALUES, Value};
use std::cmp::Ordering;
use std::hash::{Hash, Hasher};
use std::marker::Model;

/// A set of values below `MAX_VALUES`, seen as the number whose bits are its members. Its words have 128 bits, the lowest first.
#[derive(Clone, Copy, Debug, Default)]
pub struct ValueSet {
    w0: u128,
    w1: u128,
    w2: u128,
    w3: u128,
    w4: u128,
    w5: u128,
    w6: u128,
    w7: u128,
}

impl Model for ValueSet {
    ghost use Rattle.std.specs.Prelude.{ℕ};
    ghost use Rattle.mv_base.specs.Words.{number, AreWords};
    ghost use Rattle.mv_base.specs.SetInside.{words, set_of, inverse_words};

    ghost Value = { ℕ };

    ghost view = { λ s. number (words s) };

    ghost invariant = { λ s. AreWords (words s) };

    ghost inverse = { set_of };

    ghost inverse_ok = { inverse_words };
}

impl ValueSet {
    /// The set without members.
    #[tactic(auto, unfolding(crate::specs::Set::empty))]
    pub fn empty() -> Self
        ensures { result ≡ set.empty }
    {
        ValueSet {
            w0: 0,
            w1: 0,
            w2: 0,
            w3: 0,
            w4: 0,
            w5: 0,
            w6: 0,
            w7: 0,
        }
    }

    /// The set of this value alone.
    pub fn one(value: Value) -> Self
        requires { value.0 < MAX_VALUES }
        ensures { result ≡ set.one value.0 }
    {
        let at = value.0;
        ValueSet {
            w0: one_word(at, 0),
            w1: one_word(at, 1),
            w2: one_word(at, 2),
            w3: one_word(at, 3),
            w4: one_word(at, 4),
            w5: one_word(at, 5),
            w6: one_word(at, 6),
            w7: one_word(at, 7),
        }
    }

    /// The set of the `count` values below `count`.
    pub fn full(count: u16) -> Self
        requires { count ≤ MAX_VALUES }
        ensures { result ≡ set.full count }
    {
        ValueSet {
            w0: full_word(count, 0),
            w1: full_word(count, 1),
            w2: full_word(count, 2),
            w3: full_word(count, 3),
            w4: full_word(count, 4),
            w5: full_word(count, 5),
            w6: full_word(count, 6),
            w7: full_word(count, 7),
        }
    }

    /// The word at a place.
    fn word(self, at: u16) -> u128
        ensures { result ≡ word_of self at }
    {
        match at {
            0 => self.w0,
            1 => self.w1,
            2 => self.w2,
            3 => self.w3,
            4 => self.w4,
            5 => self.w5,
            6 => self.w6,
            7 => self.w7,
            _ => 0,
        }
    }

    /// The set of values below 64 with these bits.
    pub fn of_bits(bits: u64) -> Self
        ensures { result ≡ bits }
    {
        ValueSet {
            w0: bits as u128,
            w1: 0,
            w2: 0,
            w3: 0,
            w4: 0,
            w5: 0,
            w6: 0,
            w7: 0,
        }
    }

    /// The bits of the set, or None where a member isn't below 64.
    pub fn bits(self) -> Option<u64>
        ensures some { IfSome result (λ bits. self ≡ bits) }
        ensures none { IsNone result → 2 ^ 64 ≤ self }
    {
        let above = self.w1 | self.w2 | self.w3 | self.w4 | self.w5 | self.w6 | self.w7;
        if above != 0 || self.w0 > u64::MAX as u128 {
            return None;
        }
        Some(self.w0 as u64)
    }

    /// Whether the value is a member.
    pub fn has(self, value: Value) -> bool
        ensures { result ≡ set.has self value.0 }
    {
        (self.word(value.0 / 128) >> (value.0 % 128)) & 1 == 1
    }

    /// The values of both.
    pub fn meet(self, other: ValueSet) -> Self
        ensures { result ≡ set.meet self other }
    {
        ValueSet {
            w0: self.w0 & other.w0,
            w1: self.w1 & other.w1,
            w2: self.w2 & other.w2,
            w3: self.w3 & other.w3,
            w4: self.w4 & other.w4,
            w5: self.w5 & other.w5,
            w6: self.w6 & other.w6,
            w7: self.w7 & other.w7,
        }
    }

    /// The values of either.
    pub fn join(self, other: ValueSet) -> Self
        ensures { result ≡ set.join self other }
    {
        ValueSet {
            w0: self.w0 | other.w0,
            w1: self.w1 | other.w1,
            w2: self.w2 | other.w2,
            w3: self.w3 | other.w3,
            w4: self.w4 | other.w4,
            w5: self.w5 | other.w5,
            w6: self.w6 | other.w6,
            w7: self.w7 | other.w7,
        }
    }

    /// The values of `self` that are none of `other`.
    pub fn minus(self, other: ValueSet) -> Self
        ensures { result ≡ set.minus self other }
    {
        ValueSet {
            w0: self.w0 ^ (self.w0 & other.w0),
            w1: self.w1 ^ (self.w1 & other.w1),
            w2: self.w2 ^ (self.w2 & other.w2),
            w3: self.w3 ^ (self.w3 & other.w3),
            w4: self.w4 ^ (self.w4 & other.w4),
            w5: self.w5 ^ (self.w5 & other.w5),
            w6: self.w6 ^ (self.w6 & other.w6),
            w7: self.w7 ^ (self.w7 & other.w7),
        }
    }

    /// Whether every value of `self` is one of `other`.
    #[tactic(auto, using(crate::proofs::Sets::within_test))]
    pub fn within(self, other: ValueSet) -> bool
        ensures { IsTrue result ↔ set.Within self other }
    {
        self.meet(other) == self
    }

    /// How many values the set has.
    pub fn count(self) -> u16
        ensures value { result ≡ count_ones self }
        ensures bound { result ≤ MAX_VALUES }
    {
        let ones = self.w7.count_ones()
            + self.w6.count_ones()
            + self.w5.count_ones()
            + self.w4.count_ones()
            + self.w3.count_ones()
            + self.w2.count_ones()
            + self.w1.count_ones()
            + self.w0.count_ones();
        ones as u16
    }

    /// The least value of the set, or None for the empty set.
    pub fn least(self) -> Option<Value>
        ensures none { IsNone result ↔ (self ≡ set.empty) }
        ensures some { IfSome result (λ v. IsTrue (set.has self v.0)) }
        ensures least { IfSome result (λ v. (u : ℕ) → IsTrue (set.has self u) → v.0 ≤ u) }
    {
        let _ = &self.w0;
        for at in 0..8u16 {
            let word = self.word(at);
            if word != 0 {
                return Some(Value(128 * at + word.trailing_zeros() as u16));
            }
        }
        None
    }

    /// Every member of a set is below `MAX_VALUES`.
    pub fn members_are_small(self)
        ensures { set.IsSet self }
    {
        let _ = &self.w0;
    }
}

/// The word at a place of the set of one value.
fn one_word(value: u16, at: u16) -> u128
    ensures { result ≡ word_of (2 ^ value) at }
{
    if value / 128 == at {
        1 << (value % 128)
    } else {
        0
    }
}

/// The word at a place of the set of the values below a number.
fn full_word(count: u16, at: u16) -> u128
    requires { at < 8 }
    ensures { result ≡ word_of (2 ^ count - 1) at }
{
    let from = 128 * at;
    if count <= from {
        0
    } else if count - from >= 128 {
        u128::MAX
    } else {
        (1 << (count - from)) - 1
    }
}

impl PartialEq for ValueSet {
    ghost use Rattle.std.specs.Prelude.{nat_eq};
    ghost use Rattle.std.proofs.Common.{rules};
    ghost use Rattle.std.specs.Cmp.Rules.{comparing};

    ghost eq = { nat_eq };

    ghost laws = { Prim.search (comparing, rules) };

    fn eq(&self, other: &ValueSet) -> bool {
        (self.w7 == other.w7)
            & (self.w6 == other.w6)
            & (self.w5 == other.w5)
            & (self.w4 == other.w4)
            & (self.w3 == other.w3)
            & (self.w2 == other.w2)
            & (self.w1 == other.w1)
            & (self.w0 == other.w0)
    }
}

impl Eq for ValueSet {
    ghost use Rattle.std.proofs.Common.{rules};
    ghost use Rattle.std.specs.Cmp.Rules.{comparing};

    ghost laws = { Prim.search (comparing, rules) };
}

impl Ord for ValueSet {
    ghost use Rattle.std.specs.Ordering.{nat_cmp};
    ghost use Rattle.std.proofs.Common.{rules};
    ghost use Rattle.std.specs.Cmp.Rules.{comparing};

    ghost cmp = { nat_cmp };

    ghost total = { Prim.search (comparing, rules) };

    ghost matches_partial_cmp = { Prim.search (comparing, rules) };

    ghost matches_eq = { Prim.search (comparing, rules) };

    fn cmp(&self, other: &ValueSet) -> Ordering {
        self.w7
            .cmp(&other.w7)
            .then(self.w6.cmp(&other.w6))
            .then(self.w5.cmp(&other.w5))
            .then(self.w4.cmp(&other.w4))
            .then(self.w3.cmp(&other.w3))
            .then(self.w2.cmp(&other.w2))
            .then(self.w1.cmp(&other.w1))
            .then(self.w0.cmp(&other.w0))
    }
}

impl PartialOrd for ValueSet {
    ghost use Rattle.std.specs.Ordering.{nat_cmp, as_partial_cmp};
    ghost use Rattle.std.proofs.Common.{rules};
    ghost use Rattle.std.specs.Cmp.{partial_order_from_own_ties};
    ghost use Rattle.std.specs.Cmp.Rules.{comparing};

    ghost partial_cmp = { as_partial_cmp nat_cmp };

    ghost laws = { partial_order_from_own_ties (Prim.search (comparing, rules)) (Prim.search (comparing, rules)) };

    fn partial_cmp(&self, other: &ValueSet) -> Option<Ordering> {
        Some(self.cmp(other))
    }
}

impl Hash for ValueSet {
    ghost use Rattle.std.specs.Hash as fed;
    ghost use Rattle.mv_base.specs.Words.{set_fed};
    ghost use Rattle.std.proofs.Common.{rules};
    ghost use Rattle.std.specs.Cmp.Rules.{hashing};

    ghost hash_input = { set_fed };

    ghost respects_eq = { Prim.search (hashing, rules) };

    fn hash<H: Hasher>(&self, state: &mut H) {
        self.w0.hash(state);
        self.w1.hash(state);
        self.w2.hash(state);
        self.w3.hash(state);
        self.w4.hash(state);
        self.w5.hash(state);
        self.w6.hash(state);
        self.w7.hash(state);
    }
}

/// What the words for sets mean, value by value: the numbers in the clauses of `ValueSet` are sets of values.
pub fn set_laws()
    ensures empty { (v : ℕ) → set.has set.empty v ≡ false }
    ensures one { (u v : ℕ) → set.has (set.one u) v ≡ (v == u) }
    ensures full { (k v : ℕ) → set.has (set.full k) v ≡ nat_lt v k }
    ensures meet { (a b v : ℕ) → set.has (set.meet a b) v ≡ (set.has a v && set.has b v) }
    ensures join { (a b v : ℕ) → set.has (set.join a b) v ≡ (set.has a v || set.has b v) }
    ensures minus { (a b v : ℕ) → set.has (set.minus a b) v ≡ (set.has a v && not (set.has b v)) }
    ensures count_none { count_ones set.empty ≡ 0 }
    ensures count_more { (s v : ℕ) → set.has s v ≡ false
        → count_ones (set.join s (set.one v)) ≡ count_ones s + 1 }
    ensures same { (a b : ℕ) → ((v : ℕ) → set.has a v ≡ set.has b v) → a ≡ b }
{}
