ghost use Rattle.std.specs.Prelude.{◌≡◌, ◌<◌, ℕ, false, All, IfOk, IsTrue, MatchOption, length};
ghost use Rattle.mv_base.specs.declared.number.NetId.{NetId};
ghost use Rattle.mv_extract.specs.Dividing.{candidates_of};
ghost use Rattle.mv_extract.specs.Keeping.{IsBehind, IsSearch};
ghost use Rattle.mv_graph.specs.Nets.{has_id};
ghost use Rattle.mv_net.specs.Index.{is_held};
ghost use Rattle.mv_net.specs.Nets.{net_reads, slot};
ghost use Rattle.mv_gains.specs.Candidates.{IsBest, NoneSaves};

use mv_base::{Items, Memory, NetId};
use mv_cover::Cube;
use mv_gains::{CubeGains, Gains};
use mv_net::Network;
use std::alloc::Global;

/// Among which divisors a command chooses.
#[derive(Clone, Copy)]
pub enum Divisors {
    /// The kernels of the covers of all tables.
    Kernels,
    /// The single cubes that two lines have in common.
    Cubes,
}

/// What is kept from one step of a command to the next.
#[derive(Drop)]
pub enum Search {
    /// What the kernels of the tables save.
    Kernels(Gains),
    /// What the common cubes of the tables' lines save.
    Cubes(CubeGains),
}

/// The search before the first step.
pub fn begin(alloc: Global, net: &Network, divisors: Divisors) -> Result<Search, Memory>
    ensures { IfOk result (IsSearch divisors net.now.nets) }
{
    match divisors {
        Divisors::Kernels => Ok(Search::Kernels(Gains::of(alloc, net)?)),
        Divisors::Cubes => Ok(Search::Cubes(CubeGains::of(alloc, net)?)),
    }
}

/// The best of the divisors, if one saves.
pub fn best(
    alloc: Global,
    net: &Network,
    divisors: Divisors,
    search: &mut Search,
) -> Result<Option<Items<Cube>>, Memory>
    requires { IsSearch divisors net.now.nets search.old }
    ensures found { IfOk result (λ found. MatchOption found
        (NoneSaves (candidates_of divisors) net.now.nets)
        (λ divisor. IsBest (candidates_of divisors) net.now.nets divisor)) }
    ensures search { IsSearch divisors net.now.nets search.new }
{
    match search {
        Search::Kernels(gains) => gains.best(net),
        Search::Cubes(gains) => gains.best(alloc, net),
    }
}

/// The search behind a step that gave the network the net d and divided tables by it.
pub fn follow(
    alloc: Global,
    net: &Network,
    divisors: Divisors,
    search: Search,
    d: NetId,
) -> Result<Search, Memory>
    requires held { IsTrue (is_held net.now.nets d.0) }
    requires behind { IsBehind divisors net.now.nets d search }
    ensures { IfOk result (IsSearch divisors net.now.nets) }
{
    match search {
        Search::Kernels(gains) => {
            let changed = changed_nets(alloc, net, d)?;
            Ok(Search::Kernels(gains.update(alloc, net, changed.as_slice())?))
        }
        Search::Cubes(gains) => {
            let changed = changed_nets(alloc, net, d)?;
            Ok(Search::Cubes(gains.update(alloc, net, changed.as_slice())?))
        }
    }
}

/// The net, and the nets whose tables read it.
fn changed_nets(alloc: Global, net: &Network, d: NetId) -> Result<Vec<NetId>, Memory>
    requires { IsTrue (is_held net.now.nets d.0) }
    ensures below { IfOk result
        (λ list. All (λ (n : NetId). n.0 < length net.now.nets) list.items) }
    ensures all { IfOk result (λ list. (n : ℕ) → has_id list.items n ≡ false
        → (n ≡ d.0 → ⊥) × (net_reads (slot net.now.nets n) d.0 ≡ false)) }
{
    let mut list = Vec::from_slice(alloc, net.readers(d))?;
    list.push(d)?;
    Ok(list)
}
