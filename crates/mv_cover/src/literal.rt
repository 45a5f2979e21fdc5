ghost use Rattle.std.specs.Prelude.{◌≡◌, ◌^◌, ◌++◌, ◌↔◌, true, false, not, nat_eq, nat_lt, IfOk, OnOk, IfSome, IsNone, IsTrue};
ghost use Rattle.mv_base.specs.Set.{has, empty, meet, Within};

use mv_base::{Memory, NetId, PackedSet, Value, ValueSet, has_bit};
use smallvec::SmallVec;
use std::alloc::Global;
use std::hash::{Hash, Hasher};
use std::marker::Model;
use std::rc::Rc;

/// A literal: the net has one of these values. It has sixteen bytes: values below 64 stand in it, and another set stands in
/// memory once, for all its copies.
#[derive(Debug, Drop)]
pub struct Lit {
    form: Form,
}

/// Where the values stand.
#[derive(Debug, Drop)]
enum Form {
    Few { net: NetId, bits: u64 },
    Many { net: NetId, wide: Rc<ValueSet> },
}

impl Model for Lit {
    ghost use Rattle.mv_cover.specs.Literal.{Lit as a_lit, lit_code};
    ghost use Rattle.mv_cover.specs.Forms.{lit_of};

    ghost Value = { a_lit };

    ghost coded = { lit_code };

    ghost view = { λ l. lit_of l.form };
}

impl Default for Lit {
    fn default() -> Lit {
        Lit {
            form: Form::Few {
                net: NetId(0),
                bits: 0,
            },
        }
    }
}

impl Lit {
    /// The literal of this net and this set.
    pub fn new(alloc: Global, net: NetId, set: ValueSet) -> Result<Lit, Memory>
        ensures net { IfOk result (λ l. l.net ≡ net) }
        ensures set { IfOk result (λ l. l.set ≡ set) }
    {
        let form = match set.bits() {
            Some(bits) => Form::Few { net, bits },
            None => Form::Many {
                net,
                wide: Rc::new(alloc, set)?,
            },
        };
        Ok(Lit { form })
    }

    /// The literal of this net and this set.
    pub fn of(alloc: Global, net: NetId, set: &PackedSet) -> Result<Lit, Memory>
        ensures net { IfOk result (λ l. l.net ≡ net) }
        ensures set { IfOk result (λ l. l.set ≡ set.now) }
    {
        match set.bits() {
            Some(bits) => Ok(Lit {
                form: Form::Few { net, bits },
            }),
            None => Lit::new(alloc, net, set.get()),
        }
    }

    /// The net.
    pub fn net(&self) -> NetId
        ensures value { result ≡ self.now.net }
        ensures number { result.0 ≡ self.now.net.0 }
    {
        match &self.form {
            Form::Few { net, bits: _ } => *net,
            Form::Many { net, wide: _ } => *net,
        }
    }

    /// The values of which the net has one.
    pub fn set(&self) -> ValueSet
        ensures { result ≡ self.now.set }
    {
        match &self.form {
            Form::Few { net: _, bits } => ValueSet::of_bits(*bits),
            Form::Many { net: _, wide } => *wide.as_ref(),
        }
    }

    /// The bits of the set, or None where a value isn't below 64.
    pub fn bits(&self) -> Option<u64>
        ensures some { IfSome result
            (λ bits. (self.now.set ≡ bits) × (nat_lt bits (2 ^ 64) ≡ true)) }
        ensures none { IsNone result → nat_lt self.now.set (2 ^ 64) ≡ false }
    {
        match &self.form {
            Form::Few { net: _, bits } => Some(*bits),
            Form::Many { net: _, wide } => wide.as_ref().bits(),
        }
    }

    /// An equal literal. A set that stands in memory is shared, and takes none.
    pub fn copy(&self) -> Result<Lit, Memory>
        ensures { IfOk result (λ l. l ≡ self.now) }
    {
        let form = match &self.form {
            Form::Few { net, bits } => Form::Few {
                net: *net,
                bits: *bits,
            },
            Form::Many { net, wide } => Form::Many {
                net: *net,
                wide: wide.clone()?,
            },
        };
        Ok(Lit { form })
    }

    /// Whether the set has no value.
    #[tactic(auto, unfolding(mv_base::specs::Set::empty))]
    pub fn is_empty(&self) -> bool
        ensures { result ≡ nat_eq self.now.set empty }
    {
        match &self.form {
            Form::Few { net: _, bits } => *bits == 0,
            Form::Many { net: _, wide } => *wide.as_ref() == ValueSet::empty(),
        }
    }

    /// Whether the value is one of the set.
    pub fn has(&self, value: Value) -> bool
        ensures { result ≡ has self.now.set value.0 }
    {
        match &self.form {
            Form::Few { net: _, bits } => has_bit(*bits, value),
            Form::Many { net: _, wide } => wide.as_ref().has(value),
        }
    }

    /// Whether some value is in the sets of both.
    #[tactic(auto, unfolding(mv_base::specs::Set::empty, mv_base::specs::Set::meet))]
    pub fn meets(&self, other: &Lit) -> bool
        ensures { result ≡ not (nat_eq (meet self.now.set other.now.set) empty) }
    {
        if let (Form::Few { net: _, bits: a }, Form::Few { net: _, bits: b }) = (
            &self.form,
            &other.form,
        ) {
            return *a & *b != 0;
        }
        self.set().meet(other.set()) != ValueSet::empty()
    }

    /// Whether every value of this set is one of the other.
    #[tactic(auto, using(mv_base::proofs::Sets::within_test))]
    pub fn within(&self, other: &Lit) -> bool
        ensures { IsTrue result ↔ Within self.now.set other.now.set }
    {
        if let (Form::Few { net: _, bits: a }, Form::Few { net: _, bits: b }) = (
            &self.form,
            &other.form,
        ) {
            return *a & *b == *a;
        }
        self.set().within(other.set())
    }

    /// The literal of this net, with the values of both sets.
    #[tactic(auto, unfolding(mv_base::specs::Set::meet))]
    pub fn meet(&self, alloc: Global, other: &Lit) -> Result<Lit, Memory>
        ensures net { IfOk result (λ l. l.net ≡ self.now.net) }
        ensures set { IfOk result (λ l. l.set ≡ meet self.now.set other.now.set) }
    {
        if let (Form::Few { net, bits: a }, Form::Few { net: _, bits: b }) = (
            &self.form,
            &other.form,
        ) {
            return Ok(Lit {
                form: Form::Few {
                    net: *net,
                    bits: *a & *b,
                },
            });
        }
        Lit::new(alloc, self.net(), self.set().meet(other.set()))
    }
}

impl PartialEq for Lit {
    ghost use Rattle.std.proofs.Common.{rules};
    ghost use Rattle.std.specs.Cmp.Rules.{comparing};
    ghost use Rattle.mv_cover.specs.Equal.{lit_eq};

    ghost eq = { lit_eq };

    ghost laws = { Prim.search (comparing, rules) };

    fn eq(&self, other: &Lit) -> bool {
        if let (Form::Few { net: n, bits: a }, Form::Few { net: m, bits: b }) = (
            &self.form,
            &other.form,
        ) {
            return *n == *m && *a == *b;
        }
        self.net() == other.net() && self.set() == other.set()
    }
}

impl Eq for Lit {
    ghost use Rattle.std.proofs.Common.{rules};
    ghost use Rattle.std.specs.Cmp.Rules.{comparing};

    ghost laws = { Prim.search (comparing, rules) };
}

impl Hash for Lit {
    ghost use Rattle.std.proofs.Common.{rules};
    ghost use Rattle.std.specs.Cmp.Rules.{hashing};
    ghost use Rattle.mv_cover.specs.Equal.{lit_fed};

    ghost hash_input = { lit_fed };

    ghost respects_eq = { Prim.search (hashing, rules) };

    fn hash<H: Hasher>(&self, state: &mut H) {
        self.net().hash(state);
        match self.bits() {
            Some(bits) => bits.hash(state),
            None => self.set().hash(state),
        }
    }
}

/// Appends copies of these literals.
pub(crate) fn copy_all(copies: &mut SmallVec<Lit, 2>, lits: &[Lit]) -> Result<(), Memory>
    ensures { OnOk result (copies.new.items ≡ copies.old.items ++ lits.now) }
{
    for l in lits {
        copies.push(l.copy()?)?;
    }
    Ok(())
}

/// A list of copies of these literals.
pub(crate) fn copies_of(alloc: Global, lits: &[Lit]) -> Result<Vec<Lit>, Memory>
    ensures { IfOk result (λ copies. copies.items ≡ lits.now) }
{
    let mut copies = Vec::with_capacity(alloc, lits.len())?;
    for l in lits {
        copies.push(l.copy()?)?;
    }
    Ok(copies)
}
