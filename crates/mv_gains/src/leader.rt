ghost use Rattle.std.specs.Prelude.{◌≡◌, None, IfOk, fold, map};
ghost use Rattle.std.specs.Ordering.{is_lt};
ghost use Rattle.mv_kernels.specs.Order.{cubes_cmp};
ghost use Rattle.mv_gains.specs.Leading.{is_ahead, leader, offer};

use crate::kernels::Candidate;
use mv_base::{Items, Memory};
use mv_cover::Cube;
use mv_kernels::{Kernel, compare_lists};
use std::cmp::Ordering;

/// A divisor, and what it saves.
#[derive(Drop)]
pub struct Offer {
    pub divisor: Items<Cube>,
    pub saved: u128,
}

/// The best of the candidates, if one saves: the least of those that save the most.
pub fn leader_of(candidates: &[Candidate]) -> Result<Option<Offer>, Memory>
    ensures { IfOk result (λ best. best ≡ fold leader None (map offer candidates.now)) }
{
    let mut best = None;
    for candidate in candidates {
        best = led_by(best, candidate)?;
    }
    Ok(best)
}

/// The new candidate, where it is better than the best so far, which else stays.
fn led_by(best: Option<Offer>, candidate: &Candidate) -> Result<Option<Offer>, Memory>
    ensures { IfOk result (λ found. found ≡ leader best (offer candidate.now)) }
{
    if !is_better(&best, candidate) {
        return Ok(best);
    }
    let kernel = candidate.kernel.copy()?;
    Ok(Some(Offer {
        divisor: kernel.cubes,
        saved: candidate.saved,
    }))
}

/// Whether the candidate is better than the best so far: it saves more, or as much and comes before it.
fn is_better(best: &Option<Offer>, candidate: &Candidate) -> bool
    ensures { result ≡ is_ahead best.now (offer candidate.now) }
{
    match best {
        None => 0 < candidate.saved,
        Some(old) => {
            old.saved < candidate.saved
                || candidate.saved == old.saved && comes_before(&candidate.kernel, old)
        }
    }
}

/// Whether the kernel comes before the divisor.
fn comes_before(kernel: &Kernel, old: &Offer) -> bool
    ensures { result ≡ is_lt (cubes_cmp kernel.now.cubes old.now.divisor) }
{
    compare_lists(kernel.cubes.as_slice(), old.divisor.as_slice()) == Ordering::Less
}
