ghost use Rattle.std.specs.Prelude.{◌≡◌, [], ◌∷◌, IsTrue, IfOk};
ghost use Rattle.mv_net.specs.Index.{is_held};
ghost use Rattle.mv_net.specs.Total.{IsRemovable};
ghost use Rattle.mv_plans.specs.Checks.{Answers};
ghost use Rattle.mv_plans.specs.Plans.{IsPlanned};
ghost use Rattle.mv_plans.specs.Removing.{Removes, RemoveRow, FailsRemove};

use crate::lookup::tabled;
use mv_base::{Items, Memory, Name, NetId};
use mv_entry::RuleFault;
use mv_net::{Change, Network};
use std::alloc::Global;

/// The change by which the net with this name goes, or the first check that fails.
pub fn plan_remove(alloc: Global, net: &Network, name: &Name) -> Result<Change, RuleFault>
    ensures { Answers result (IsPlanned net.now (Removes net.now name.now))
        (FailsRemove net.now name.now) }
{
    net.well_formed();
    net.few();
    let Some(n) = tabled(net, name) else {
        return Err(RuleFault::NoNet);
    };
    match check_remove(alloc, net, n) {
        Ok(()) => {}
        Err(fault) => return Err(fault),
    }
    match leaving(alloc, n) {
        Ok(change) => Ok(change),
        Err(_memory) => Err(RuleFault::Memory),
    }
}

/// Whether the net can go, or the first check of it that fails.
fn check_remove(alloc: Global, net: &Network, n: NetId) -> Result<(), RuleFault>
    requires { IsTrue (is_held net.now.nets n.0) }
    ensures { Answers result (λ _. IsRemovable net.now n.0) (RemoveRow net.now n.0) }
{
    if net.is_seen(n) {
        return Err(RuleFault::Visible);
    }
    if !net.readers(n).is_empty() {
        return Err(RuleFault::Read);
    }
    match net.is_total(alloc, n) {
        Ok(true) => Ok(()),
        Ok(false) => Err(RuleFault::Partial),
        Err(_memory) => Err(RuleFault::Memory),
    }
}

/// The change by which a net goes, and nothing else.
fn leaving(alloc: Global, n: NetId) -> Result<Change, Memory>
    ensures { IfOk result
        (λ change. change ≡ record { add = []; set = []; values = []; gone = n ∷ [] }) }
{
    let mut gone = Items::new(alloc);
    gone.push(n)?;
    Ok(Change {
        add: Items::new(alloc),
        set: Items::new(alloc),
        values: Items::new(alloc),
        gone,
    })
}
