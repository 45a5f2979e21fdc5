ghost use Rattle.std.specs.Prelude.{◌≡◌, ℕ};
ghost use Rattle.mv_body.specs.Bodies.{cover_said};
ghost use Rattle.mv_partial.specs.Partial.{ArePartial};
ghost use Rattle.mv_plans.specs.Checks.{Answers, IsTabled};
ghost use Rattle.mv_plans.specs.Narrowing.{
  FailsNarrow,
  HasFlexibility,
  IsNarrowBody,
  Narrows,
  NarrowsWithin,
  StopsNarrow,
};
ghost use Rattle.mv_plans.specs.Plans.{IsPlanned};

use crate::divide::getting;
use crate::lawful::{judged, judged_next, judged_with, narrow_body, reached};
use crate::lookup::tabled;
use mv_base::Name;
use mv_entry::{Body, RuleFault};
use mv_flex::Flexibility;
use mv_net::{Change, Network, NewTable};
use mv_partial::PartialNets;
use std::alloc::Global;

/// The change by which the net with this name gets the body, or the first check that fails, or that
/// there are too few nodes.
pub fn plan_narrow(
    alloc: Global,
    net: &Network,
    name: &Name,
    d: u16,
    u: u16,
    body: &Body,
    budget: u32,
) -> Result<Change, RuleFault>
    ensures { Answers result (IsPlanned net.now (Narrows net.now name.now d u body.now))
        (StopsNarrow budget net.now name.now d u body.now) }
{
    net.well_formed();
    net.few();
    let new = match wanted(alloc, net, name, d, u, body) {
        Ok(new) => new,
        Err(fault) => return Err(fault),
    };
    match judged(alloc, net, new.net, d as u8, u as u8, &new.table, budget) {
        Ok(()) => {}
        Err(fault) => return Err(fault),
    }
    match getting(alloc, new.net, new.table) {
        Ok(change) => Ok(change),
        Err(_memory) => Err(RuleFault::Memory),
    }
}

/// The same where it is known from which nets on some table isn't total: it looks at no other table
/// below the net.
pub fn plan_narrow_next(
    alloc: Global,
    net: &Network,
    name: &Name,
    d: u16,
    u: u16,
    body: &Body,
    budget: u32,
    partial: &PartialNets,
) -> Result<Change, RuleFault>
    requires { ArePartial net.now.nets partial.now }
    ensures { Answers result (IsPlanned net.now (Narrows net.now name.now d u body.now))
        (StopsNarrow budget net.now name.now d u body.now) }
{
    net.well_formed();
    net.few();
    let new = match wanted(alloc, net, name, d, u, body) {
        Ok(new) => new,
        Err(fault) => return Err(fault),
    };
    match judged_next(net, new.net, d as u8, u as u8, &new.table, budget, partial) {
        Ok(()) => {}
        Err(fault) => return Err(fault),
    }
    match getting(alloc, new.net, new.table) {
        Ok(change) => Ok(change),
        Err(_memory) => Err(RuleFault::Memory),
    }
}

/// The same where the flexibility is at hand, and each table below the net is total.
pub fn plan_narrow_with(
    alloc: Global,
    net: &Network,
    name: &Name,
    d: u16,
    u: u16,
    body: &Body,
    flexibility: &Flexibility,
) -> Result<Change, RuleFault>
    ensures { (budget : ℕ) → HasFlexibility net.now name.now d u budget flexibility.now
        → Answers result (IsPlanned net.now (Narrows net.now name.now d u body.now))
        (StopsNarrow budget net.now name.now d u body.now) }
{
    net.well_formed();
    net.few();
    let new = match wanted(alloc, net, name, d, u, body) {
        Ok(new) => new,
        Err(fault) => return Err(fault),
    };
    match judged_with(flexibility, &new.table) {
        Ok(()) => {}
        Err(fault) => return Err(fault),
    }
    match getting(alloc, new.net, new.table) {
        Ok(change) => Ok(change),
        Err(_memory) => Err(RuleFault::Memory),
    }
}

/// The same where the body allows less than the table, and it is known from which nets on some table
/// isn't total.
pub fn plan_narrow_within(
    alloc: Global,
    net: &Network,
    name: &Name,
    d: u16,
    u: u16,
    body: &Body,
    partial: &PartialNets,
) -> Result<Change, RuleFault>
    requires less { NarrowsWithin net.now name.now body.now }
    requires right { ArePartial net.now.nets partial.now }
    ensures { Answers result (IsPlanned net.now (Narrows net.now name.now d u body.now))
        (FailsNarrow net.now name.now d u body.now) }
{
    net.well_formed();
    net.few();
    let new = match wanted(alloc, net, name, d, u, body) {
        Ok(new) => new,
        Err(fault) => return Err(fault),
    };
    match reached(net, new.net, d as u8, u as u8, partial) {
        Ok(()) => {}
        Err(fault) => return Err(fault),
    }
    match getting(alloc, new.net, new.table) {
        Ok(change) => Ok(change),
        Err(_memory) => Err(RuleFault::Memory),
    }
}

/// The net with this name and the body as its new table, or the first check that fails of those that
/// ask for no window.
fn wanted(
    alloc: Global,
    net: &Network,
    name: &Name,
    d: u16,
    u: u16,
    body: &Body,
) -> Result<NewTable, RuleFault>
    ensures { Answers result
        (λ new. IsTabled net.now.nets name.now new.net.0
        × IsNarrowBody net.now.nets new.net.0 d u body.now
        × (new.table ≡ cover_said net.now.nets body.now))
        (FailsNarrow net.now name.now d u body.now) }
{
    let Some(n) = tabled(net, name) else {
        return Err(RuleFault::NoNet);
    };
    match narrow_body(alloc, net, n, d, u, body) {
        Ok(table) => Ok(NewTable { net: n, table }),
        Err(fault) => Err(fault),
    }
}
