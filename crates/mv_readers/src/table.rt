ghost use Rattle.std.specs.Prelude.{◌≡◌, true, is_some, Some};
ghost use Rattle.mv_net.specs.Nets.{slot, table_in};

use mv_base::NetId;
use mv_cover::Cover;
use mv_net::Network;

/// The table of a net that has one. No memory.
pub fn table_of(net: &Network, n: NetId) -> &Cover
    requires { is_some (table_in (slot net.now.nets n.0)) ≡ true }
    ensures { table_in (slot net.now.nets n.0) ≡ Some result.now }
{
    net.table(n).unwrap()
}
