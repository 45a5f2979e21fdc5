ghost use Rattle.std.specs.Prelude.{◌≡◌, ℕ, ◌≤◌, ◌&&◌, nat_eq, nat_lt};
ghost use Rattle.mv_base.specs.declared.limits.TheConstants.{MAX_VALUES as limit};
ghost use Rattle.mv_base.specs.Set as set;
ghost use Rattle.mv_merging.specs.Values as spec;

use mv_base::{Value, ValueSet};

/// How values of a net are merged: one goes, another takes its place or none does, and so many are left. Those that are greater
/// than the one that goes move down by one.
#[derive(Clone, Copy, Debug, PartialEq, Eq)]
pub struct Merging {
    pub left: u16,
    pub gone: Value,
    pub into: Option<Value>,
}

impl Merging {
    /// The set behind the merge. It costs what the set has members.
    pub(crate) fn merged(self, old: ValueSet) -> ValueSet
        requires { self.left ≤ limit }
        ensures { result ≡ spec.merged_set self old }
    {
        let mut all = ValueSet::empty();
        let mut rest = old;
        while let Some(value) = rest.least() {
            rest.members_are_small();
            all = all.join(self.merged_value(value));
            rest = rest.minus(ValueSet::one(value));
        }
        all
    }

    /// What the set of this value alone is behind the merge.
    fn merged_value(self, value: Value) -> ValueSet
        requires { self.left ≤ limit }
        ensures { result ≡ spec.merged_set self (set.one value.0) }
    {
        if value.0 != self.gone.0 {
            return self.moved(value);
        }
        match self.into {
            None => ValueSet::empty(),
            Some(into) => self.moved(into),
        }
    }

    /// The set of the number that the value has behind the merge, or the empty set where it doesn't stay.
    fn moved(self, value: Value) -> ValueSet
        requires { self.left ≤ limit }
        ensures { (v : ℕ)
            → set.has result v ≡ (nat_lt v self.left && nat_eq (spec.before self v) value.0) }
    {
        if value.0 < self.gone.0 {
            return one_below(value, self.left);
        }
        if value.0 > self.gone.0 {
            return one_below(Value(value.0 - 1), self.left);
        }
        ValueSet::empty()
    }
}

/// The set of the value alone, or the empty set where it isn't one of so many.
fn one_below(value: Value, values: u16) -> ValueSet
    requires { values ≤ limit }
    ensures { (v : ℕ) → set.has result v ≡ (nat_lt v values && nat_eq v value.0) }
{
    if value.0 < values {
        return ValueSet::one(value);
    }
    ValueSet::empty()
}
