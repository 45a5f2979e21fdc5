ghost use Rattle.std.specs.Prelude.{◌≡◌, ◌<◌, ◌≤◌, ℕ, IsTrue, ◌↔◌, ◌==◌, not, IfOk, IfSome, IsNone, nat_lt, true, false, ◌^◌};
ghost use Rattle.mv_base.specs.Set as set;
ghost use Rattle.mv_base.specs.Packed.{members_of};

use crate::{MAX_VALUES, Memory, Value, ValueSet};
use std::alloc::Global;
use std::cmp::Ordering;
use std::hash::{Hash, Hasher};
use std::marker::Model;
use std::rc::Rc;

/// A set of values as lists keep it, seen as the same number. One of values below 64 stands in itself; another stands in
/// memory once, for all its copies.
#[derive(Debug, Drop)]
pub struct PackedSet {
    form: Form,
}

/// Where the members stand.
#[derive(Debug, Drop)]
enum Form {
    Few(u64),
    Many(Rc<ValueSet>),
}

impl Model for PackedSet {
    ghost use Rattle.std.specs.Prelude.{ℕ};

    ghost Value = { ℕ };

    ghost use Rattle.mv_base.specs.Packed.{members_of};

    ghost view = { λ s. members_of s.form };
}

impl Default for PackedSet {
    fn default() -> PackedSet {
        PackedSet { form: Form::Few(0) }
    }
}

impl PackedSet {
    /// This set, to be kept.
    pub fn new(alloc: Global, set: ValueSet) -> Result<PackedSet, Memory>
        ensures { IfOk result (λ kept. kept ≡ set) }
    {
        let form = match set.bits() {
            Some(bits) => Form::Few(bits),
            None => Form::Many(Rc::new(alloc, set)?),
        };
        Ok(PackedSet { form })
    }

    /// The set of this value alone, to be kept.
    #[tactic(auto, unfolding(crate::specs::Set::one))]
    pub fn one(alloc: Global, value: Value) -> Result<PackedSet, Memory>
        requires { value.0 < MAX_VALUES }
        ensures { IfOk result (λ kept. kept ≡ set.one value.0) }
    {
        if value.0 < 64 {
            return Ok(PackedSet {
                form: Form::Few(1 << value.0),
            });
        }
        PackedSet::new(alloc, ValueSet::one(value))
    }

    /// The set of the `count` values below `count`, to be kept.
    pub fn full(alloc: Global, count: u16) -> Result<PackedSet, Memory>
        requires { count ≤ MAX_VALUES }
        ensures { IfOk result (λ kept. kept ≡ set.full count) }
    {
        match full_bits(count) {
            Some(bits) => Ok(PackedSet {
                form: Form::Few(bits),
            }),
            None => PackedSet::new(alloc, ValueSet::full(count)),
        }
    }

    /// Whether these are the `count` values below `count`.
    pub fn is_full(&self, count: u16) -> bool
        requires { count ≤ MAX_VALUES }
        ensures { result ≡ (self.now == set.full count) }
    {
        if let (Form::Few(bits), Some(all)) = (&self.form, full_bits(count)) {
            return *bits == all;
        }
        self.get() == ValueSet::full(count)
    }

    /// The set.
    pub fn get(&self) -> ValueSet
        ensures { result ≡ self.now }
    {
        match &self.form {
            Form::Few(bits) => ValueSet::of_bits(*bits),
            Form::Many(wide) => *wide.as_ref(),
        }
    }

    /// The bits of the set, or None where a member isn't below 64.
    pub fn bits(&self) -> Option<u64>
        ensures some { IfSome result (λ bits. (self.now ≡ bits) × (nat_lt bits (2 ^ 64) ≡ true)) }
        ensures none { IsNone result → nat_lt self.now (2 ^ 64) ≡ false }
    {
        match &self.form {
            Form::Few(bits) => Some(*bits),
            Form::Many(wide) => wide.as_ref().bits(),
        }
    }

    /// An equal set. One that stands in memory is shared, and takes none.
    pub fn copy(&self) -> Result<PackedSet, Memory>
        ensures { IfOk result (λ kept. kept ≡ self.now) }
    {
        let form = match &self.form {
            Form::Few(bits) => Form::Few(*bits),
            Form::Many(wide) => Form::Many(wide.clone()?),
        };
        Ok(PackedSet { form })
    }

    /// Whether the set has no member.
    #[tactic(auto, unfolding(crate::specs::Set::empty))]
    pub fn is_empty(&self) -> bool
        ensures { result ≡ (self.now == set.empty) }
    {
        match &self.form {
            Form::Few(bits) => *bits == 0,
            Form::Many(wide) => *wide.as_ref() == ValueSet::empty(),
        }
    }

    /// Whether some value is in both.
    #[tactic(auto, unfolding(crate::specs::Set::empty, crate::specs::Set::meet))]
    pub fn meets(&self, other: &PackedSet) -> bool
        ensures { result ≡ not (set.meet self.now other.now == set.empty) }
    {
        if let (Form::Few(a), Form::Few(b)) = (&self.form, &other.form) {
            return *a & *b != 0;
        }
        self.get().meet(other.get()) != ValueSet::empty()
    }

    /// The values of both.
    #[tactic(auto, unfolding(crate::specs::Set::meet))]
    pub fn meet(&self, alloc: Global, other: &PackedSet) -> Result<PackedSet, Memory>
        ensures { IfOk result (λ kept. kept ≡ set.meet self.now other.now) }
    {
        if let (Form::Few(a), Form::Few(b)) = (&self.form, &other.form) {
            return Ok(PackedSet {
                form: Form::Few(*a & *b),
            });
        }
        PackedSet::new(alloc, self.get().meet(other.get()))
    }

    /// Whether every value of `self` is one of `other`.
    #[tactic(auto, using(crate::proofs::Sets::within_test))]
    pub fn within(&self, other: &PackedSet) -> bool
        ensures { IsTrue result ↔ set.Within self.now other.now }
    {
        if let (Form::Few(a), Form::Few(b)) = (&self.form, &other.form) {
            return *a & *b == *a;
        }
        self.get().within(other.get())
    }

    /// Whether the value is a member.
    pub fn has(&self, value: Value) -> bool
        ensures { result ≡ set.has self.now value.0 }
    {
        match &self.form {
            Form::Few(bits) => has_bit(*bits, value),
            Form::Many(wide) => wide.as_ref().has(value),
        }
    }
}

/// Whether the bit of the value is set.
pub fn has_bit(bits: u64, value: Value) -> bool
    ensures { result ≡ set.has bits value.0 }
{
    value.0 < 64 && (bits >> value.0) & 1 == 1
}

/// The bits of the set of the values below a number, or None where it has more than 64.
fn full_bits(count: u16) -> Option<u64>
    ensures { IfSome result (λ bits. bits ≡ set.full count) }
{
    match count {
        0..64 => Some((1 << count) - 1),
        64 => Some(u64::MAX),
        _ => None,
    }
}

impl PartialEq for PackedSet {
    ghost use Rattle.std.specs.Prelude.{nat_eq};
    ghost use Rattle.std.proofs.Common.{rules};
    ghost use Rattle.std.specs.Cmp.Rules.{comparing};

    ghost eq = { nat_eq };

    ghost laws = { Prim.search (comparing, rules) };

    fn eq(&self, other: &PackedSet) -> bool {
        if let (Form::Few(a), Form::Few(b)) = (&self.form, &other.form) {
            return *a == *b;
        }
        self.get() == other.get()
    }
}

impl Eq for PackedSet {
    ghost use Rattle.std.proofs.Common.{rules};
    ghost use Rattle.std.specs.Cmp.Rules.{comparing};

    ghost laws = { Prim.search (comparing, rules) };
}

impl Ord for PackedSet {
    ghost use Rattle.std.specs.Ordering.{nat_cmp};
    ghost use Rattle.std.proofs.Common.{rules};
    ghost use Rattle.std.specs.Cmp.Rules.{comparing};

    ghost cmp = { nat_cmp };

    ghost total = { Prim.search (comparing, rules) };

    ghost matches_partial_cmp = { Prim.search (comparing, rules) };

    ghost matches_eq = { Prim.search (comparing, rules) };

    fn cmp(&self, other: &PackedSet) -> Ordering {
        if let (Form::Few(a), Form::Few(b)) = (&self.form, &other.form) {
            return a.cmp(b);
        }
        self.get().cmp(&other.get())
    }
}

impl PartialOrd for PackedSet {
    ghost use Rattle.std.specs.Ordering.{nat_cmp, as_partial_cmp};
    ghost use Rattle.std.proofs.Common.{rules};
    ghost use Rattle.std.specs.Cmp.{partial_order_from_own_ties};
    ghost use Rattle.std.specs.Cmp.Rules.{comparing};

    ghost partial_cmp = { as_partial_cmp nat_cmp };

    ghost laws = { partial_order_from_own_ties (Prim.search (comparing, rules)) (Prim.search (comparing, rules)) };

    fn partial_cmp(&self, other: &PackedSet) -> Option<Ordering> {
        Some(self.cmp(other))
    }
}

impl Hash for PackedSet {
    ghost use Rattle.std.proofs.Common.{rules};
    ghost use Rattle.std.specs.Cmp.Rules.{hashing};
    ghost use Rattle.mv_base.specs.Words.{kept_fed};

    ghost hash_input = { kept_fed };

    ghost respects_eq = { Prim.search (hashing, rules) };

    fn hash<H: Hasher>(&self, state: &mut H) {
        match self.bits() {
            Some(bits) => bits.hash(state),
            None => self.get().hash(state),
        }
    }
}
