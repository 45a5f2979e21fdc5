ghost use Rattle.std.specs.Prelude.{◌≡◌, ◌++◌, map, IfOk, OnOk};
ghost use Rattle.mv_cover.specs.Literal.{Lit};
ghost use Rattle.mv_cover.specs.Covers.{cover_reads};
ghost use Rattle.mv_net.specs.Nets.{net_reads};
ghost use Rattle.mv_graph.specs.Nets.{has_id, IsAscending};
ghost use Rattle.mv_net.specs.Index.{line_nets, AreFanins};

use crate::FlatNet;
use mv_base::{Items, Memory, NetId};
use mv_cover::{Cover, Cube};
use std::alloc::Global;

/// Puts the nets of the cube's literals behind the others.
fn add_nets(nets: &mut Vec<NetId>, cube: &Cube) -> Result<(), Memory>
    ensures { OnOk result
        (nets.new.items ≡ nets.old.items ++ map (λ (l : Lit). l.net) cube.now) }
{
    for lit in cube.lits() {
        nets.push(lit.net())?;
    }
    Ok(())
}

/// The nets of all literals, in order.
fn nets_of(alloc: Global, cover: &Cover) -> Result<Vec<NetId>, Memory>
    ensures { IfOk result (λ nets. nets.items ≡ line_nets cover.now.lines) }
{
    let mut nets = Vec::new(alloc);
    for line in cover.lines.as_slice() {
        add_nets(&mut nets, &line.cube)?;
    }
    Ok(nets)
}

/// These nets by ascending number, each once.
pub fn ascending(mut nets: Vec<NetId>) -> Items<NetId>
    ensures { IsAscending (has_id nets.items) result }
{
    nets.sort_unstable();
    nets.dedup();
    Items::of(nets)
}

/// The nets that the cover has literals on.
pub fn fanins_of_cover(alloc: Global, cover: &Cover) -> Result<Items<NetId>, Memory>
    ensures { IfOk result (λ nets. IsAscending (cover_reads cover.now) nets) }
{
    let nets = nets_of(alloc, cover)?;
    Ok(ascending(nets))
}

/// The nets that the net reads.
fn fanins_of_net(alloc: Global, net: &Option<FlatNet>) -> Result<Items<NetId>, Memory>
    ensures { IfOk result (λ nets. IsAscending (net_reads net.now) nets) }
{
    match net {
        Some(held) => match &held.table {
            Some(cover) => fanins_of_cover(alloc, cover),
            None => Ok(Items::new(alloc)),
        },
        None => Ok(Items::new(alloc)),
    }
}

/// For each number the nets that its net reads.
pub fn fanins_of(alloc: Global, nets: &[Option<FlatNet>]) -> Result<Items<Items<NetId>>, Memory>
    ensures { IfOk result (λ rows. AreFanins nets.now rows) }
{
    let mut rows = Items::new(alloc);
    for net in nets {
        rows.push(fanins_of_net(alloc, net)?)?;
    }
    Ok(rows)
}
