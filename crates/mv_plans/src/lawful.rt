ghost use Rattle.std.specs.Prelude.{◌≡◌, ℕ, Some, IsTrue, is_some, MatchResult};
ghost use Rattle.mv_body.specs.Bodies.{cover_said};
ghost use Rattle.mv_cover.specs.declared.cover.Cover.{Cover};
ghost use Rattle.mv_cover.specs.Covers.{cover_reads};
ghost use Rattle.mv_flex.specs.Flex.{IsOverFanins};
ghost use Rattle.mv_meaning.specs.Narrowing.{ReadsWithin};
ghost use Rattle.mv_narrow.specs.declared.verdict.NarrowVerdict.TheVariants.{Lawful};
ghost use Rattle.mv_narrow.specs.Verdicts.{IsFlexHere};
ghost use Rattle.mv_net.specs.declared.parts.NetParts.{NetParts};
ghost use Rattle.mv_net.specs.Index.{is_held};
ghost use Rattle.mv_net.specs.Nets.{slot, table_in};
ghost use Rattle.mv_partial.specs.Partial.{ArePartial};
ghost use Rattle.mv_plans.specs.Checks.{Answers};
ghost use Rattle.mv_plans.specs.Narrowing.{
  IsLawfulHere,
  IsNarrowBody,
  IsWithinReach,
  NarrowRow,
  NarrowedRow,
  StopsNarrowed,
  fault_for,
};

use mv_base::{MAX_WINDOW_STEPS, NetId};
use mv_body::{is_known, tidy_cover};
use mv_cover::Cover;
use mv_entry::{Body, RuleFault};
use mv_flex::Flexibility;
use mv_narrow::{
    NarrowVerdict, is_over_fanins, is_too_wide, narrow_verdict, verdict_above_total, verdict_with,
};
use mv_net::Network;
use mv_partial::PartialNets;
use std::alloc::Global;

/// The body as a table of the net, in a window that goes so far, or the first check that fails of those
/// that ask for no window.
pub fn narrow_body(
    alloc: Global,
    net: &Network,
    n: NetId,
    d: u16,
    u: u16,
    body: &Body,
) -> Result<Cover, RuleFault>
    requires { IsTrue (is_held net.now.nets n.0) }
    ensures { Answers result
        (λ table. IsNarrowBody net.now.nets n.0 d u body.now
        × (table ≡ cover_said net.now.nets body.now))
        (NarrowRow d u body.now net.now n.0) }
{
    net.well_formed();
    if !is_known(net, body) {
        return Err(RuleFault::NoNet);
    }
    let table = match tidy_cover(alloc, net, net.values(n), body) {
        Ok(Some(table)) => table,
        Ok(None) => return Err(RuleFault::Form),
        Err(_memory) => return Err(RuleFault::Memory),
    };
    if d as u64 > MAX_WINDOW_STEPS {
        return Err(RuleFault::Form);
    }
    if u as u64 > MAX_WINDOW_STEPS {
        return Err(RuleFault::Form);
    }
    match is_over_fanins(alloc, net, n, &table) {
        Ok(true) => Ok(table),
        Ok(false) => Err(RuleFault::Outside),
        Err(_memory) => Err(RuleFault::Memory),
    }
}

/// Whether the table may take the place of the net's, in a window that goes so far, or the first check
/// of that that fails, or that there are too few nodes.
pub fn judged(
    alloc: Global,
    net: &Network,
    n: NetId,
    d: u8,
    u: u8,
    table: &Cover,
    budget: u32,
) -> Result<(), RuleFault>
    requires table { IsTrue (is_some (table_in (slot net.now.nets n.0))) }
    requires reads { IsOverFanins net.now.nets n.0 (cover_reads table.now) }
    ensures { Answers result (λ _. IsLawfulHere net.now n.0 d u table.now)
        (StopsNarrowed budget net.now n.0 d u table.now) }
{
    match narrow_verdict(alloc, net, n, d, u, table, budget) {
        Ok(verdict) => of_verdict(verdict),
        Err(_memory) => Err(RuleFault::Memory),
    }
}

/// The same where it is known from which nets on some table isn't total.
pub fn judged_next(
    net: &Network,
    n: NetId,
    d: u8,
    u: u8,
    table: &Cover,
    budget: u32,
    partial: &PartialNets,
) -> Result<(), RuleFault>
    requires table { IsTrue (is_some (table_in (slot net.now.nets n.0))) }
    requires reads { IsOverFanins net.now.nets n.0 (cover_reads table.now) }
    requires right { ArePartial net.now.nets partial.now }
    ensures { Answers result (λ _. IsLawfulHere net.now n.0 d u table.now)
        (StopsNarrowed budget net.now n.0 d u table.now) }
{
    if partial.is_below(net, n) {
        return Err(RuleFault::Partial);
    }
    match verdict_above_total(net, n, d, u, table, budget) {
        Ok(verdict) => of_verdict(verdict),
        Err(_memory) => Err(RuleFault::Memory),
    }
}

/// The same by the net's flexibility in that window.
pub fn judged_with(flexibility: &Flexibility, table: &Cover) -> Result<(), RuleFault>
    ensures { (net : NetParts) (n d u budget : ℕ) (old : Cover)
        → IsFlexHere net n d u budget flexibility.now → table_in (slot net.nets n) ≡ Some old
        → ReadsWithin old table.now
        → Answers result (λ _. IsLawfulHere net n d u table.now)
        (StopsNarrowed budget net n d u table.now) }
{
    match verdict_with(flexibility, table) {
        Ok(verdict) => of_verdict(verdict),
        Err(_memory) => Err(RuleFault::Memory),
    }
}

/// The fault for a verdict, unless it is that the table is lawful.
fn of_verdict(verdict: NarrowVerdict) -> Result<(), RuleFault>
    ensures { MatchResult result (λ _. verdict ≡ Lawful) (λ f. fault_for verdict ≡ Some f) }
{
    match verdict {
        NarrowVerdict::Partial => Err(RuleFault::Partial),
        NarrowVerdict::TooWide => Err(RuleFault::Window),
        NarrowVerdict::NoNodes => Err(RuleFault::Nodes),
        NarrowVerdict::Outside => Err(RuleFault::Outside),
        NarrowVerdict::Lost => Err(RuleFault::Lost),
        NarrowVerdict::Lawful => Ok(()),
    }
}

/// Whether each table below the net is total and the window that goes so far isn't too wide, or the
/// check of these that fails, where it is known from which nets on some table isn't total.
pub fn reached(
    net: &Network,
    n: NetId,
    d: u8,
    u: u8,
    partial: &PartialNets,
) -> Result<(), RuleFault>
    requires table { IsTrue (is_some (table_in (slot net.now.nets n.0))) }
    requires right { ArePartial net.now.nets partial.now }
    ensures { Answers result (λ _. IsWithinReach net.now n.0 d u)
        (λ f. (new : Cover) → NarrowedRow net.now n.0 d u new f) }
{
    if partial.is_below(net, n) {
        return Err(RuleFault::Partial);
    }
    let window = net.window(n, d, u)?;
    if is_too_wide(net, &window) {
        return Err(RuleFault::Window);
    }
    Ok(())
}
