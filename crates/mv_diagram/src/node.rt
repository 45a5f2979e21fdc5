ghost use Rattle.std.specs.Prelude.{◌≡◌, ◌+◌, ◌^◌, ◌<◌};
ghost use Rattle.mv_diagram.specs.Links.{place_of};

use mv_pool::{Id, Linked};

/// The number of a diagram: that of the empty set, that of the set of all points, or one made from the place of its
/// first node.
#[derive(Clone, Copy, Debug, PartialEq, Eq, Hash)]
pub struct Dd(pub u64);

/// The diagram of the empty set.
pub(crate) const ZERO: Dd = Dd(0);
/// The diagram of the set of all points.
pub(crate) const ONE: Dd = Dd(1);
/// The number of the diagram whose first node stands at place 0.
const FIRST: u64 = 2;

/// No more nodes fit: the pool holds `cap` of them.
#[derive(Clone, Copy, Debug, PartialEq, Eq)]
pub struct Nodes {
    pub cap: u32,
}

/// Whether a variable has this value.
#[derive(Clone, Copy, Debug, PartialEq, Eq, Hash)]
pub struct Test {
    pub var: u32,
    pub value: u16,
}

/// A test, with the diagram for the points that pass it and the one for all others.
#[derive(Clone, Copy, Debug, PartialEq, Eq, Hash)]
pub struct Node {
    pub test: Test,
    pub yes: Dd,
    pub no: Dd,
}

impl Dd {
    /// The diagram whose first node stands at this place.
    pub(crate) fn at(id: Id) -> Dd
        ensures number { result.0 ≡ id.0 + 2 }
        ensures fits { result.0 < 2 ^ 32 + 2 }
    {
        Dd(u64::from(id.0) + FIRST)
    }

    /// The place of its first node, or None for zero and one, and for a number that is no place's.
    pub(crate) fn place(self) -> Option<Id>
        ensures { result ≡ place_of self.0 }
    {
        if self.0 < FIRST || self.0 - FIRST > u64::from(u32::MAX) {
            return None;
        }
        Some(Id((self.0 - FIRST) as u32))
    }
}

impl Linked for Node {
    ghost use Rattle.std.specs.Prelude.{◌==◌, if◌then◌else◌};
    ghost use Rattle.mv_diagram.specs.Links.{place_of};

    ghost link_of = { λ n k. place_of (if k == 0 then n.yes.0 else n.no.0) };

    fn link(&self, k: u32) -> Option<Id> {
        if k == 0 {
            self.yes.place()
        } else {
            self.no.place()
        }
    }
}
