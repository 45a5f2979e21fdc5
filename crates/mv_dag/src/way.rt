//! The two ways along a graph.
ghost use Rattle.std.specs.Prelude.{◌≡◌, ℕ, true};
ghost use Rattle.mv_graph.specs.Nets.{has_id, row};
ghost use Rattle.mv_dag.specs.Searches.{leads_to, HasReaders};

use crate::rows::row_of;
use mv_base::{Items, NetId};

/// A way along a graph.
#[derive(Clone, Copy, Debug)]
pub enum Way {
    /// From a net to those that it reads.
    Up,
    /// From a net to those that read it.
    Down,
}

/// Whether the way leads from the one net to the other.
pub fn is_step(way: Way, fanins: &[Items<NetId>], from: NetId, to: NetId) -> bool
    ensures { result ≡ leads_to way fanins.now from.0 to.0 }
{
    match way {
        Way::Up => reads(fanins, from, to),
        Way::Down => reads(fanins, to, from),
    }
}

/// Whether the net reads the other.
pub fn reads(fanins: &[Items<NetId>], net: NetId, fanin: NetId) -> bool
    ensures { result ≡ has_id (row fanins.now net.0) fanin.0 }
{
    row_of(fanins, net).contains(&fanin)
}

/// A list that has each net to which the way leads from this one, and maybe others.
pub fn next_nets<'a>(
    way: Way,
    fanins: &'a [Items<NetId>],
    readers: &'a [Items<NetId>],
    net: NetId,
) -> &'a [NetId]
    requires { HasReaders fanins.now readers.now }
    ensures { (n : ℕ) → leads_to way fanins.now net.0 n ≡ true → has_id result.now n ≡ true }
{
    match way {
        Way::Up => row_of(fanins, net),
        Way::Down => row_of(readers, net),
    }
}
