//! Lists of nets, one for each number from 0.
ghost use Rattle.std.specs.Prelude.{◌≡◌};
ghost use Rattle.mv_graph.specs.Nets.{row};

use mv_base::{Items, NetId};

/// The list of a net, and none past the last.
pub fn row_of(rows: &[Items<NetId>], net: NetId) -> &[NetId]
    ensures { result.now ≡ row rows.now net.0 }
{
    match rows.get(net.0 as usize) {
        Some(nets) => nets.as_slice(),
        None => &[],
    }
}
