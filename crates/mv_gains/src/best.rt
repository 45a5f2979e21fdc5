ghost use Rattle.std.specs.Prelude.{◌≡◌, ◌<◌, ◌∷◌, [], All, IfOk, IfSome, MatchOption, length, map};
ghost use Rattle.mv_cover.specs.declared.line.Line.{Line as a_line};
ghost use Rattle.mv_meets.specs.Meets.{IsAnswer};
ghost use Rattle.mv_gains.specs.Candidates.{all_lines, IsBest, IsCubeCandidate, IsKernelCandidate, NoneSaves};
ghost use Rattle.mv_gains.specs.Best as spec;
ghost use Rattle.mv_gains.specs.Best.{IsBestOf, IsChosen, IsOnlySaved, SavesNothing};
ghost use Rattle.mv_gains.specs.Tables.{IsDivisor};

use crate::cubes::{all_cubes, cube_candidates};
use crate::gains::Gains;
use crate::tables::Tables;
use mv_base::{Items, Memory};
use mv_cover::Cube;
use mv_kernels::compare_lists;
use mv_meets::{Answer, best_meet};
use mv_net::Network;
use mv_saving::literals;
use std::alloc::Global;
use std::cmp::Ordering;

/// The kernel that is best taken out of the tables of the network: the least of those that save the most, or None where none
/// saves. A cover of more than `MAX_KERNELS` kernels gives none.
pub fn best_kernel(alloc: Global, net: &Network) -> Result<Option<Items<Cube>>, Memory>
    ensures { IfOk result (λ best. MatchOption best
        (NoneSaves IsKernelCandidate net.now.nets)
        (IsBest IsKernelCandidate net.now.nets)) }
{
    let mut gains = Gains::of(alloc, net)?;
    gains.best(net)
}

/// The cube that is best taken out of the tables of the network: the least of those that save the most, or None where none
/// saves. It is searched for among the sets of symbols that may save as much as the best so far, and among all candidates where
/// that takes more visits than there are pairs of lines.
pub fn best_cube(alloc: Global, net: &Network) -> Result<Option<Items<Cube>>, Memory>
    ensures { IfOk result (λ best. MatchOption best
        (NoneSaves IsCubeCandidate net.now.nets)
        (IsBest IsCubeCandidate net.now.nets)) }
{
    net.well_formed();
    let answer = searched_cube(alloc, net)?;
    match answer {
        Answer::Best(cube) => Ok(Some(alone(alloc, cube)?)),
        Answer::NoneSaves => Ok(None),
        Answer::Unknown => best_candidate(alloc, net),
    }
}

/// The cube that saves the most, unless it isn't found by some more visits than there are pairs of lines.
fn searched_cube(alloc: Global, net: &Network) -> Result<Answer, Memory>
    ensures { IfOk result (IsAnswer (map (λ (l : a_line). l.cube) (all_lines net.now.nets))) }
{
    net.well_formed();
    let cubes = all_cubes(alloc, net.parts().nets.as_slice())?;
    let count = cubes.len() as u64;
    let visits = count.saturating_mul(count).saturating_add(10_000);
    best_meet(alloc, cubes.as_slice(), visits)
}

/// The cube as a divisor of its own.
pub fn alone(alloc: Global, cube: Cube) -> Result<Items<Cube>, Memory>
    ensures { IfOk result (λ divisor. divisor ≡ cube ∷ []) }
{
    let mut divisor = Items::new(alloc);
    divisor.push(cube)?;
    Ok(divisor)
}

/// The best of all cubes that two lines have in common, if one saves.
pub fn best_candidate(alloc: Global, net: &Network) -> Result<Option<Items<Cube>>, Memory>
    ensures { IfOk result (λ best. MatchOption best
        (NoneSaves IsCubeCandidate net.now.nets)
        (IsBest IsCubeCandidate net.now.nets)) }
{
    net.well_formed();
    let tables = Tables::of(alloc, net)?;
    let candidates = cube_candidates(alloc, net)?;
    best_of(&tables, candidates)
}

/// A candidate that saves, by its place.
#[derive(Clone, Copy)]
struct Best {
    place: usize,
    saved: u128,
}

/// The best of the candidates, if one saves.
fn best_of(tables: &Tables, candidates: Vec<Items<Cube>>) -> Result<Option<Items<Cube>>, Memory>
    requires { All IsDivisor candidates.items }
    ensures { IfOk result (λ best. MatchOption best
        (All (SavesNothing tables.now) candidates.items)
        (IsChosen tables.now candidates.items)) }
{
    let mut candidates = candidates;
    match best_place(tables, candidates.as_slice())? {
        None => Ok(None),
        Some(best) => Ok(Some(candidates.swap_remove(best.place))),
    }
}

/// Where the best of the candidates stands, if one saves, and what it saves.
fn best_place(tables: &Tables, candidates: &[Items<Cube>]) -> Result<Option<Best>, Memory>
    requires { All IsDivisor candidates.now }
    ensures { IfOk result (λ best. MatchOption best
        (All (SavesNothing tables.now) candidates.now)
        (IsBestOf tables.now candidates.now candidates.now)) }
{
    let mut best = None;
    for (place, divisor) in candidates.iter().enumerate() {
        let saved = saved_by(tables, divisor.as_slice())?;
        best = better(candidates, best, Best { place, saved });
    }
    Ok(best)
}

/// What adding the divisor and dividing all tables by it saves, and 0 where that is nothing.
fn saved_by(tables: &Tables, divisor: &[Cube]) -> Result<u128, Memory>
    requires { IsDivisor divisor.now }
    ensures { IfOk result (λ saved. IsOnlySaved tables.now divisor.now saved) }
{
    let gain = tables.gain(divisor)?;
    let own = literals(divisor);
    if gain < own {
        return Ok(0);
    }
    Ok(gain - own)
}

/// The new one of these candidates, where it is better than the best so far, which else stays.
fn better(candidates: &[Items<Cube>], best: Option<Best>, new: Best) -> Option<Best>
    requires new { new.place < length candidates.now }
    requires best { IfSome best (λ b. b.place < length candidates.now) }
    ensures { result ≡ spec.better candidates.now best new }
{
    match best {
        None => (new.saved > 0).then_some(new),
        Some(old) => {
            if new.saved > old.saved
                || new.saved == old.saved && comes_before(candidates, new.place, old.place)
            {
                Some(new)
            } else {
                Some(old)
            }
        }
    }
}

/// Whether the candidate at the one place comes before that at the other.
fn comes_before(candidates: &[Items<Cube>], one: usize, other: usize) -> bool
    requires one { one < length candidates.now }
    requires other { other < length candidates.now }
    ensures { result ≡ spec.comes_before candidates.now one other }
{
    compare_lists(candidates[one].as_slice(), candidates[other].as_slice()) == Ordering::Less
}
