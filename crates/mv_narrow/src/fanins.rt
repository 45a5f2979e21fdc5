ghost use Rattle.std.specs.Prelude.{◌≡◌, IsTrue, IfOk, MatchBool};
ghost use Rattle.std.specs.List.{list_all};
ghost use Rattle.mv_base.specs.declared.number.NetId.{NetId};
ghost use Rattle.mv_cover.specs.Covers.{cover_reads};
ghost use Rattle.mv_flex.specs.Flex.{IsOverFanins};
ghost use Rattle.mv_graph.specs.Nets.{has_id};
ghost use Rattle.mv_net.specs.Index.{is_held};

use mv_base::{Memory, NetId};
use mv_cover::Cover;
use mv_net::{Network, fanins_of_cover};
use std::alloc::Global;

/// Whether the table reads fanins of the net alone.
pub fn is_over_fanins(alloc: Global, net: &Network, n: NetId, table: &Cover) -> Result<bool, Memory>
    requires { IsTrue (is_held net.now.nets n.0) }
    ensures { IfOk result
        (λ yes. MatchBool yes (IsOverFanins net.now.nets n.0 (cover_reads table.now))
        (IsOverFanins net.now.nets n.0 (cover_reads table.now) → ⊥)) }
{
    let read = fanins_of_cover(alloc, table)?;
    Ok(are_among(read.as_slice(), net.fanins(n)))
}

/// Whether each of the nets is one of the others.
fn are_among(nets: &[NetId], others: &[NetId]) -> bool
    ensures { result ≡ list_all (λ (m : NetId). has_id others.now m.0) nets.now }
{
    nets.iter().all(|m| is_among(*m, others))
}

/// Whether the net is one of the others.
fn is_among(net: NetId, others: &[NetId]) -> bool
    ensures { result ≡ has_id others.now net.0 }
{
    others.iter().any(|other| *other == net)
}
