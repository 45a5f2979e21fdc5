//! Labels of nets.
ghost use Rattle.std.specs.Prelude.{◌≡◌, ◌+◌, ◌-◌, ◌*◌, ◌%◌, ◌^◌};

use std::cmp::Ordering;
use std::marker::Model;

/// The place of a net in an order: a bucket, and an id within it. It is seen as the number that has the bucket in its upper
/// bits and the id in its 32 lower ones. Where each net has an id of its own, no two labels are equal whatever the buckets.
#[derive(Clone, Copy, Debug)]
pub struct Label {
    bucket: u32,
    id: u32,
}

impl Model for Label {
    ghost use Rattle.std.specs.Prelude.{◌≡◌, ℕ, ◌<◌, ◌+◌, ◌*◌, ◌/◌, ◌%◌, ◌^◌};
    ghost use Rattle.std.proofs.Common.{arith};

    ghost Value = { ℕ };

    ghost view = { λ l. l.bucket * 2 ^ 32 + l.id };

    ghost invariant = { λ l. (l.bucket < 2 ^ 32) × (l.id < 2 ^ 32) };

    ghost inverse = { λ n. record { bucket = n / 2 ^ 32; id = n % 2 ^ 32 } };

    ghost inverse_ok = { λ l h i. record {
      bucket = (let e : (l.bucket * 2 ^ 32 + l.id) / 2 ^ 32 ≡ l.bucket = Prim.omega arith in e i);
      id = (let e : (l.bucket * 2 ^ 32 + l.id) % 2 ^ 32 ≡ l.id = Prim.omega arith in e i);
    } };
}

impl Label {
    /// The label in this bucket with this id.
    pub fn new(bucket: u32, id: u32) -> Self
        ensures { result ≡ bucket * 2 ^ 32 + id }
    {
        Label { bucket, id }
    }

    /// The label in the same bucket with this id.
    pub fn behind(self, id: u32) -> Self
        ensures { result ≡ self - self % 2 ^ 32 + id }
    {
        Label {
            bucket: self.bucket,
            id,
        }
    }
}

impl PartialEq for Label {
    ghost use Rattle.std.specs.Prelude.{nat_eq};
    ghost use Rattle.std.proofs.Common.{rules};
    ghost use Rattle.std.specs.Cmp.Rules.{comparing};

    ghost eq = { nat_eq };

    ghost laws = { Prim.search (comparing, rules) };

    fn eq(&self, other: &Label) -> bool {
        self.bucket == other.bucket && self.id == other.id
    }
}

impl Eq for Label {
    ghost use Rattle.std.proofs.Common.{rules};
    ghost use Rattle.std.specs.Cmp.Rules.{comparing};

    ghost laws = { Prim.search (comparing, rules) };
}

impl Ord for Label {
    ghost use Rattle.std.specs.Ordering.{nat_cmp};
    ghost use Rattle.std.proofs.Common.{rules};
    ghost use Rattle.std.specs.Cmp.Rules.{comparing};

    ghost cmp = { nat_cmp };

    ghost total = { Prim.search (comparing, rules) };

    ghost matches_partial_cmp = { Prim.search (comparing, rules) };

    ghost matches_eq = { Prim.search (comparing, rules) };

    fn cmp(&self, other: &Label) -> Ordering {
        self.bucket.cmp(&other.bucket).then(self.id.cmp(&other.id))
    }
}

impl PartialOrd for Label {
    ghost use Rattle.std.specs.Ordering.{nat_cmp, as_partial_cmp};
    ghost use Rattle.std.proofs.Common.{rules};
    ghost use Rattle.std.specs.Cmp.{partial_order_from_own_ties};
    ghost use Rattle.std.specs.Cmp.Rules.{comparing};

    ghost partial_cmp = { as_partial_cmp nat_cmp };

    ghost laws = { partial_order_from_own_ties (Prim.search (comparing, rules)) (Prim.search (comparing, rules)) };

    fn partial_cmp(&self, other: &Label) -> Option<Ordering> {
        Some(self.cmp(other))
    }
}
