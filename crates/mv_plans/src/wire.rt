ghost use Rattle.std.specs.Prelude.{◌≡◌, [], IsTrue, IfOk};
ghost use Rattle.mv_readers.specs.Readers.{AreRewritten};
ghost use Rattle.mv_net.specs.Index.{is_held};
ghost use Rattle.mv_net.specs.Plain.{IsPlainBuffer};
ghost use Rattle.mv_composite.specs.Wired.{wired};
ghost use Rattle.mv_plans.specs.Checks.{Answers, IsRead};
ghost use Rattle.mv_plans.specs.Plans.{IsPlanned};
ghost use Rattle.mv_plans.specs.Wiring.{Wires, WireRow, FailsWire};

use crate::lookup::tabled;
use mv_base::{Items, Memory, Name, NetId};
use mv_composite::wire;
use mv_entry::RuleFault;
use mv_net::{Change, Network, NewTable};
use mv_readers::table_of;
use std::alloc::Global;

/// The change by which the readers of the net with this name read its fanin, or the first check that fails.
pub fn plan_wire(alloc: Global, net: &Network, name: &Name) -> Result<Change, RuleFault>
    ensures { Answers result (IsPlanned net.now (Wires net.now name.now))
        (FailsWire net.now name.now) }
{
    net.well_formed();
    net.few();
    let Some(n) = tabled(net, name) else {
        return Err(RuleFault::NoNet);
    };
    let source = match check_wire(net, n) {
        Ok(source) => source,
        Err(fault) => return Err(fault),
    };
    match wired_readers(alloc, net, n, source) {
        Ok(set) => Ok(rewiring(alloc, set)),
        Err(_memory) => Err(RuleFault::Memory),
    }
}

/// The net that the net has the value of, or the first check that fails.
fn check_wire(net: &Network, n: NetId) -> Result<NetId, RuleFault>
    requires { IsTrue (is_held net.now.nets n.0) }
    ensures { Answers result
        (λ source. IsPlainBuffer net.now.nets n.0 source.0 × IsRead net.now.nets n.0)
        (WireRow net.now n.0) }
{
    match net.plain_buffer(n) {
        Some(source) => {
            if net.readers(n).is_empty() {
                return Err(RuleFault::Unread);
            }
            Ok(source)
        }
        None => Err(RuleFault::NotSame),
    }
}

/// The tables of the readers, each with the one net in place of the other.
fn wired_readers(
    alloc: Global,
    net: &Network,
    n: NetId,
    source: NetId,
) -> Result<Items<NewTable>, Memory>
    requires { IsTrue (is_held net.now.nets n.0) }
    ensures { IfOk result (AreRewritten net.now.nets (wired n.0 source.0) n.0) }
{
    let readers = net.readers(n);
    let mut tables = Items::new(alloc);
    for reader in readers {
        let table = wire(alloc, n, source, table_of(net, *reader))?;
        tables.push(NewTable {
            net: *reader,
            table,
        })?;
    }
    Ok(tables)
}

/// The change by which nets get these tables.
fn rewiring(alloc: Global, set: Items<NewTable>) -> Change
    ensures { result ≡ record { add = []; set = set; values = []; gone = [] } }
{
    Change {
        add: Items::new(alloc),
        set,
        values: Items::new(alloc),
        gone: Items::new(alloc),
    }
}
