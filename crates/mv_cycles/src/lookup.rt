//! What stands at the number of a net.
ghost use Rattle.std.specs.Prelude.{◌≡◌};
ghost use Rattle.mv_graph.specs.Nets.{row};
ghost use Rattle.mv_graph.specs.Marks.{is_marked};
ghost use Rattle.mv_cycles.specs.Ranks.{rank};

use mv_base::{Items, NetId};

/// The row of a net.
pub fn row_of(rows: &[Items<NetId>], net: NetId) -> &[NetId]
    ensures { result.now ≡ row rows.now net.0 }
{
    match rows.get(net.0 as usize) {
        Some(nets) => nets.as_slice(),
        None => &[],
    }
}

/// Whether the net is marked.
pub fn has_mark(marks: &[bool], net: NetId) -> bool
    ensures { result ≡ is_marked marks.now net.0 }
{
    match marks.get(net.0 as usize) {
        Some(mark) => *mark,
        None => false,
    }
}

/// The rank of a net, and 0 where it has none.
pub fn rank_of(ranks: &[usize], net: NetId) -> usize
    ensures { result ≡ rank ranks.now net.0 }
{
    match ranks.get(net.0 as usize) {
        Some(rank) => *rank,
        None => 0,
    }
}
