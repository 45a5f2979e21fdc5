ghost use Rattle.std.specs.Prelude.{◌≡◌, ℕ, List, IsTrue, true, false};
ghost use Rattle.mv_cover.specs.Cubes.{matches, nets_ascend};
ghost use Rattle.mv_cover.specs.Containing.{FitsCube, MissesPoint, lies_in};

use crate::{Cube, Lit};

impl Cube {
    /// Whether every point of `other` is one of this cube. It takes no memory.
    pub fn contains(&self, other: &Cube) -> bool
        ensures test { result ≡ lies_in other.now self.now }
        ensures inside { IsTrue result → (at : ℕ → ℕ) → matches at other.now ≡ true
            → matches at self.now ≡ true }
        ensures outside { result ≡ false → (counts : List ℕ) → FitsCube counts self.now
            → FitsCube counts other.now → MissesPoint counts self.now other.now }
    {
        all_lie_in(other.lits(), self.lits())
    }
}

/// Whether each literal of `b` has one of `a` on its net, whose set is within.
/// One walk along both, since their nets ascend.
fn all_lie_in(a: &[Lit], b: &[Lit]) -> bool
    requires first { nets_ascend a.now ≡ true }
    requires second { nets_ascend b.now ≡ true }
    ensures { result ≡ lies_in a.now b.now }
{
    let mut i = 0;
    let mut j = 0;
    'walk: while i < a.len() && j < b.len() {
        let inner = &a[i];
        let outer = &b[j];
        if inner.net().0 < outer.net().0 {
            i += 1;
        } else if outer.net().0 < inner.net().0 {
            return false;
        } else if inner.within(outer) {
            i += 1;
            j += 1;
        } else {
            return false;
        }
    }
    j == b.len()
}
