ghost use Rattle.std.specs.Prelude.{◌≡◌, ◌&&◌, ℕ, false, true, not, nat_eq, IfOk, IfSome, IsNone, MatchOption, List, [], ◌∷◌};
ghost use Rattle.std.specs.List.{list_all};
ghost use Rattle.mv_base.specs.Set.{empty};
ghost use Rattle.mv_cover.specs.Cubes.{matches};
ghost use Rattle.mv_cover.specs.Meets.{IsMet, met, merged, next_of};

use crate::literal::copy_all;
use crate::{Cube, Lit};
use mv_base::Memory;
use smallvec::SmallVec;
use std::alloc::Global;

impl Cube {
    /// The points of both cubes, or None where no point is in both.
    pub fn meet(&self, other: &Cube) -> Result<Option<Cube>, Memory>
        ensures list { IfOk result
            (λ found. MatchOption found (met self.now other.now ≡ [])
            (λ cube. met self.now other.now ≡ cube ∷ [])) }
        ensures some { IfOk result (λ met. IfSome met (λ cube. IsMet self.now other.now cube)) }
        ensures points { IfOk result
            (λ met. IfSome met
            (λ cube. (at : ℕ → ℕ)
            → matches at cube ≡ (matches at self.now && matches at other.now))) }
        ensures point { IfOk result
            (λ met. IfSome met (λ cube. ((at : ℕ → ℕ) × (matches at cube ≡ true)))) }
        ensures none { IfOk result
            (λ met. IsNone met → (at : ℕ → ℕ)
            → (matches at self.now && matches at other.now) ≡ false) }
    {
        let alloc = self.allocator();
        let lits = merged(alloc, self.lits(), other.lits())?;
        if !possible(lits.as_slice()) {
            return Ok(None);
        }
        Ok(Some(Cube::of(lits)))
    }
}

/// Whether no literal has the empty set.
fn possible(lits: &[Lit]) -> bool
    ensures { result ≡ list_all (λ l. not (nat_eq l.set empty)) lits.now }
{
    lits.iter().all(|l| !l.is_empty())
}

/// The literals of both lists by ascending net, with the meet where both have one.
fn merged(alloc: Global, a: &[Lit], b: &[Lit]) -> Result<SmallVec<Lit, 2>, Memory>
    ensures { IfOk result (λ met. met.items ≡ merged a.now b.now) }
{
    let mut met = SmallVec::with_capacity(alloc, a.len() + b.len())?;
    let mut i = 0;
    let mut j = 0;
    while i < a.len() && j < b.len() {
        let step = next(alloc, &a[i], &b[j])?;
        met.push(step.lit)?;
        i += step.left;
        j += step.right;
    }
    copy_all(&mut met, &a[i..])?;
    copy_all(&mut met, &b[j..])?;
    Ok(met)
}

/// The next literal of two lists that are merged, and how many literals it takes of each.
#[derive(Drop)]
struct Step {
    lit: Lit,
    left: usize,
    right: usize,
}

/// The literal of the lesser net, or the meet of two on one net.
fn next(alloc: Global, l: &Lit, m: &Lit) -> Result<Step, Memory>
    ensures { IfOk result (λ step. step ≡ next_of l.now m.now) }
{
    if l.net().0 < m.net().0 {
        return Ok(Step {
            lit: l.copy()?,
            left: 1,
            right: 0,
        });
    }
    if m.net().0 < l.net().0 {
        return Ok(Step {
            lit: m.copy()?,
            left: 0,
            right: 1,
        });
    }
    Ok(Step {
        lit: l.meet(alloc, m)?,
        left: 1,
        right: 1,
    })
}
