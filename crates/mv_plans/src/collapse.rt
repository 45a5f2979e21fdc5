ghost use Rattle.std.specs.Prelude.{◌≡◌, [], ◌∷◌, IsTrue, true, is_some, map, IfOk, OnOk, IfErr, MatchBool};
ghost use Rattle.mv_readers.specs.Readers.{AreRewritten};
ghost use Rattle.mv_composite.specs.Composite.{composed};
ghost use Rattle.mv_net.specs.Index.{is_held};
ghost use Rattle.mv_net.specs.Nets.{slot, values_in, table_in, reads_in};
ghost use Rattle.mv_plans.specs.Checks.{Answers};
ghost use Rattle.mv_plans.specs.Plans.{IsPlanned};
ghost use Rattle.mv_plans.specs.Collapsing.{
  Collapses,
  CanCollapse,
  CollapseRow,
  FailsCollapse,
  IsUnshared,
  IsInnerOf,
  AreNarrow,
};

use crate::lookup::tabled;
use mv_base::{Items, Memory, Name, NetId};
use mv_composite::{Inner, compose};
use mv_cover::CoverStop;
use mv_entry::RuleFault;
use mv_net::{Change, Network, NewTable};
use mv_readers::table_of;
use std::alloc::Global;

/// The change by which the net with this name goes into its readers, or the first check that fails.
pub fn plan_collapse(alloc: Global, net: &Network, name: &Name) -> Result<Change, RuleFault>
    ensures { Answers result (IsPlanned net.now (Collapses net.now name.now))
        (FailsCollapse net.now name.now) }
{
    net.well_formed();
    net.few();
    let Some(n) = tabled(net, name) else {
        return Err(RuleFault::NoNet);
    };
    match check_collapse(net, n) {
        Ok(()) => {}
        Err(fault) => return Err(fault),
    }
    let inner = match inner_of(alloc, net, n) {
        Ok(inner) => inner,
        Err(_memory) => return Err(RuleFault::Memory),
    };
    let set = match composites(alloc, net, &inner) {
        Ok(set) => set,
        Err(CoverStop::Wide) => return Err(RuleFault::Wide),
        Err(CoverStop::Memory) => return Err(RuleFault::Memory),
    };
    match going_into(alloc, n, set) {
        Ok(change) => Ok(change),
        Err(_memory) => Err(RuleFault::Memory),
    }
}

/// Whether the net can go into its readers, as far as these don't get too large, or the first check that fails.
fn check_collapse(net: &Network, n: NetId) -> Result<(), RuleFault>
    requires { IsTrue (is_held net.now.nets n.0) }
    ensures { Answers result (λ _. CanCollapse net.now n.0) (CollapseRow net.now n.0) }
{
    if net.is_seen(n) {
        return Err(RuleFault::Visible);
    }
    if net.readers(n).is_empty() {
        return Err(RuleFault::Unread);
    }
    if !is_unshared(net, n) {
        return Err(RuleFault::Shared);
    }
    Ok(())
}

/// Whether the choice of the net's value is made once: its table is plainly deterministic, or one net alone reads it.
pub fn is_unshared(net: &Network, n: NetId) -> bool
    requires { IsTrue (is_held net.now.nets n.0) }
    ensures { MatchBool result (IsUnshared net.now.nets n.0) (IsUnshared net.now.nets n.0 → ⊥) }
{
    if net.readers(n).len() > 1 {
        return net.is_plainly_deterministic(n);
    }
    true
}

/// The net as a composite asks for it: its table, whether it is total, and whether it is plainly deterministic.
pub fn inner_of(alloc: Global, net: &Network, n: NetId) -> Result<Inner, Memory>
    requires { is_some (table_in (slot net.now.nets n.0)) ≡ true }
    ensures known { IfOk result (λ inner. IsInnerOf net.now.nets inner) }
    ensures net { IfOk result (λ inner. inner.net ≡ n) }
{
    let table = table_of(net, n);
    Ok(Inner {
        net: n,
        cover: table.copy()?,
        total: net.is_total(alloc, n)?,
        plain: net.is_plainly_deterministic(n),
    })
}

/// The composites of the readers with the net, or Wide where one is too wide.
fn composites(alloc: Global, net: &Network, inner: &Inner) -> Result<Items<NewTable>, CoverStop>
    requires { IsInnerOf net.now.nets inner.now }
    ensures tables { IfOk result (AreRewritten net.now.nets
        (composed (map values_in net.now.nets) inner.now) inner.now.net.0) }
    ensures narrow { OnOk result (AreNarrow net.now.nets inner.now
        (λ m. reads_in net.now.nets m inner.now.net.0)) }
    ensures wide { IfErr result (λ stop. stop ≡ CoverStop.Wide → AreNarrow net.now.nets inner.now
        (λ m. reads_in net.now.nets m inner.now.net.0) → ⊥) }
{
    net.well_formed();
    let readers = net.readers(inner.net);
    let mut tables = Items::new(alloc);
    for reader in readers {
        let table = match compose(alloc, net.counts(), inner, table_of(net, *reader)) {
            Ok(table) => table,
            Err(stop) => return Err(stop),
        };
        match tables.push(NewTable {
            net: *reader,
            table,
        }) {
            Ok(()) => {}
            Err(_full) => return Err(CoverStop::Memory),
        }
    }
    Ok(tables)
}

/// The change by which a net goes and others get these tables.
fn going_into(alloc: Global, n: NetId, set: Items<NewTable>) -> Result<Change, Memory>
    ensures { IfOk result
        (λ change. change ≡ record { add = []; set = set; values = []; gone = n ∷ [] }) }
{
    let mut gone = Items::new(alloc);
    gone.push(n)?;
    Ok(Change {
        add: Items::new(alloc),
        set,
        values: Items::new(alloc),
        gone,
    })
}
