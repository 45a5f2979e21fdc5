ghost use Rattle.std.specs.Prelude.{IsTrue, IfOk, OnOk, MatchOption};
ghost use Rattle.mv_net.specs.Index.{is_held};
ghost use Rattle.mv_plans.specs.Checks.{IsUnseen, IsUnread, IsRead};
ghost use Rattle.mv_gain.specs.Kept.{AreRight};
ghost use Rattle.mv_sweep.specs.Sweeps.{IsSweptNet};
ghost use Rattle.mv_sweep.specs.Ways.{IsWay};

use mv_base::{Memory, NetId};
use mv_gain::{KeptComposites, Verdict};
use mv_net::Network;
use std::alloc::Global;

/// Which of its rules `sweep` applies to a net.
#[derive(Clone, Copy, Debug, PartialEq, Eq)]
pub enum Way {
    Remove,
    Wire,
    Collapse,
}

/// Which rule `sweep` applies to the net of this number, if it does.
pub fn way_of(
    alloc: Global,
    net: &Network,
    kept: &mut KeptComposites,
    n: NetId,
) -> Result<Option<Way>, Memory>
    requires { AreRight net.now.nets kept.old }
    ensures way { IfOk result
        (λ way. MatchOption way (IsSweptNet net.now n.0) (IsWay net.now n.0)) }
    ensures right { OnOk result (AreRight net.now.nets kept.new) }
{
    if !net.holds(n) {
        return Ok(None);
    }
    if net.is_seen(n) {
        return Ok(None);
    }
    if net.readers(n).is_empty() {
        return way_of_unread(alloc, net, n);
    }
    way_of_read(alloc, net, kept, n)
}

/// Which rule `sweep` applies to a net that nobody sees or reads.
fn way_of_unread(alloc: Global, net: &Network, n: NetId) -> Result<Option<Way>, Memory>
    requires held { IsTrue (is_held net.now.nets n.0) }
    requires unseen { IsUnseen net.now n.0 }
    requires unread { IsUnread net.now.nets n.0 }
    ensures { IfOk result (λ way. MatchOption way (IsSweptNet net.now n.0) (IsWay net.now n.0)) }
{
    if net.is_total(alloc, n)? {
        return Ok(Some(Way::Remove));
    }
    Ok(None)
}

/// Which rule `sweep` applies to a net that other nets alone read. A constant goes into its readers with no more literals than before,
/// so it can go exactly where it saves.
fn way_of_read(
    alloc: Global,
    net: &Network,
    kept: &mut KeptComposites,
    n: NetId,
) -> Result<Option<Way>, Memory>
    requires held { IsTrue (is_held net.now.nets n.0) }
    requires unseen { IsUnseen net.now n.0 }
    requires read { IsRead net.now.nets n.0 }
    requires right { AreRight net.now.nets kept.old }
    ensures way { IfOk result
        (λ way. MatchOption way (IsSweptNet net.now n.0) (IsWay net.now n.0)) }
    ensures right { OnOk result (AreRight net.now.nets kept.new) }
{
    net.well_formed();
    if let Some(_source) = net.plain_buffer(n) {
        return Ok(Some(Way::Wire));
    }
    let Some(_value) = net.plain_constant(n) else {
        return Ok(None);
    };
    match kept.judge(alloc, net, n) {
        Ok(Verdict::Saves) => Ok(Some(Way::Collapse)),
        Ok(Verdict::Wide) => Ok(None),
        Ok(Verdict::Stays) => Ok(None),
        Err(memory) => Err(memory),
    }
}
