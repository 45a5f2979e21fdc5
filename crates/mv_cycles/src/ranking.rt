//! Ranks that never rise from a net to one of its columns. On a cycle all nets have the same.
ghost use Rattle.std.specs.Prelude.{◌≤◌, ◌↔◌, length, IfOk, IsTrue};
ghost use Rattle.mv_base.specs.declared.limits.TheConstants.{MAX_NETS};
ghost use Rattle.mv_base.specs.declared.number.NetId.{NetId};
ghost use Rattle.mv_graph.specs.Nets.{AllBelow};
ghost use Rattle.mv_cycles.specs.Ranks.{AreLower, AreNoHigher, IsRanking};

use crate::components::components;
use crate::lookup::rank_of;
use mv_base::{Items, MAX_NETS, Memory, NetId};
use std::alloc::Global;

/// Ranks for the nets: the numbers of the components where they never rise, which is tested here, and else none, so that
/// each net counts as of rank 0.
pub fn ranks(alloc: Global, columns: &[Items<NetId>]) -> Result<Vec<usize>, Memory>
    requires below { AllBelow columns.now }
    requires few { length columns.now ≤ MAX_NETS }
    ensures { IfOk result (λ ranks. IsRanking columns.now ranks.items) }
{
    let guess = components(alloc, columns)?;
    if is_ranking(columns, guess.as_slice()) {
        return Ok(guess);
    }
    Ok(Vec::new(alloc))
}

/// Whether the ranks never rise.
fn is_ranking(columns: &[Items<NetId>], ranks: &[usize]) -> bool
    requires { length columns.now ≤ MAX_NETS }
    ensures { IsTrue result ↔ IsRanking columns.now ranks.now }
{
    for (number, nets) in columns.iter().enumerate() {
        if !are_no_higher(ranks, nets.as_slice(), NetId(number as u32)) {
            return false;
        }
    }
    true
}

/// Whether none of these nets has a rank above that of the net.
fn are_no_higher(ranks: &[usize], nets: &[NetId], net: NetId) -> bool
    ensures { IsTrue result ↔ AreNoHigher ranks.now nets.now net.0 }
{
    let own = rank_of(ranks, net);
    nets.iter().all(|other| rank_of(ranks, *other) <= own)
}

/// Whether each of these nets has a rank below that of the net.
pub fn are_lower(ranks: &[usize], nets: &[NetId], net: NetId) -> bool
    ensures { IsTrue result ↔ AreLower ranks.now nets.now net.0 }
{
    let own = rank_of(ranks, net);
    nets.iter().all(|other| rank_of(ranks, *other) < own)
}
