ghost use Rattle.std.specs.Prelude.{IsTrue, OnOk};
ghost use Rattle.mv_agenda.specs.Agenda.{PutsNear};
ghost use Rattle.mv_agenda.specs.Around.{PutsWithFanins};
ghost use Rattle.mv_net.specs.Index.{is_held};

use crate::Agenda;
use mv_base::{Memory, NetId};
use mv_net::Network;

/// Puts the net and those that it reads.
fn put_with_fanins(agenda: &mut Agenda, net: &Network, n: NetId) -> Result<(), Memory>
    requires { IsTrue (is_held net.now.nets n.0) }
    ensures { OnOk result (PutsWithFanins net.now.nets n.0 agenda.old agenda.new) }
{
    agenda.put(n)?;
    agenda.put_all(net.fanins(n))
}

/// Puts the net, those that it reads, its readers, and those that these read. On an error nothing is said of what waits.
pub fn put_near(agenda: &mut Agenda, net: &Network, n: NetId) -> Result<(), Memory>
    requires { IsTrue (is_held net.now.nets n.0) }
    ensures { OnOk result (PutsNear net.now.nets n.0 agenda.old agenda.new) }
{
    put_with_fanins(agenda, net, n)?;
    for reader in net.readers(n) {
        put_with_fanins(agenda, net, *reader)?;
    }
    Ok(())
}
