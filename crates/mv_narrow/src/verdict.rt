ghost use Rattle.std.specs.Prelude.{◌≡◌, ℕ, Some, is_some, All, IfOk, IsTrue, MatchBool};
ghost use Rattle.mv_base.specs.declared.number.NetId.{NetId};
ghost use Rattle.mv_cover.specs.declared.cover.Cover.{Cover};
ghost use Rattle.mv_meaning.specs.Narrowing.{AreTotalBelow, ReadsWithin};
ghost use Rattle.mv_net.specs.Nets.{slot, table_in};
ghost use Rattle.mv_net.specs.Total.{IsTotalNet};
ghost use Rattle.mv_net.specs.declared.parts.NetParts.{NetParts};
ghost use Rattle.mv_narrow.specs.Verdicts.{IsFlexHere, IsNarrowVerdict};
ghost use Rattle.mv_narrow.specs.Answers.{IsStopVerdict, verdict_of};

use mv_base::{Memory, NetId};
use mv_cover::Cover;
use mv_flex::{FlexStop, Flexibility, Verdict, flex};
use mv_net::Network;
use std::alloc::Global;

/// What becomes of a net whose table is to give way to a new one: the first that holds.
#[derive(Clone, Copy, Debug, PartialEq, Eq)]
pub enum NarrowVerdict {
    /// A table below the net isn't total.
    Partial,
    /// The window is too wide.
    TooWide,
    /// The pool of nodes is full.
    NoNodes,
    /// The new table allows something outside the flexibility.
    Outside,
    /// The new table allows nothing where the old one allows something.
    Lost,
    /// None of that: the new table may take the old one's place.
    Lawful,
}

/// What becomes of a net with a table that is to give way to a new one, in the window that goes so many steps down from the net and
/// from there so many up. The new table reads no net that the old one doesn't. It fails for want of memory alone.
pub fn narrow_verdict(
    alloc: Global,
    net: &Network,
    n: NetId,
    d: u8,
    u: u8,
    new: &Cover,
    budget: u32,
) -> Result<NarrowVerdict, Memory>
    requires table { IsTrue (is_some (table_in (slot net.now.nets n.0))) }
    requires reads { (old : Cover) → table_in (slot net.now.nets n.0) ≡ Some old
        → ReadsWithin old new.now }
    ensures { IfOk result (λ verdict. (old : Cover) → table_in (slot net.now.nets n.0) ≡ Some old
        → IsNarrowVerdict net.now n.0 d u budget old new.now verdict) }
{
    if !are_total_below(alloc, net, n)? {
        return Ok(NarrowVerdict::Partial);
    }
    verdict_above_total(net, n, d, u, new, budget)
}

/// The same of a net below which each table is total. It looks at no table but those of the window.
pub fn verdict_above_total(
    net: &Network,
    n: NetId,
    d: u8,
    u: u8,
    new: &Cover,
    budget: u32,
) -> Result<NarrowVerdict, Memory>
    requires table { IsTrue (is_some (table_in (slot net.now.nets n.0))) }
    requires reads { (old : Cover) → table_in (slot net.now.nets n.0) ≡ Some old
        → ReadsWithin old new.now }
    requires below { AreTotalBelow net.now.nets n.0 }
    ensures { IfOk result (λ verdict. (old : Cover) → table_in (slot net.now.nets n.0) ≡ Some old
        → IsNarrowVerdict net.now n.0 d u budget old new.now verdict) }
{
    net.well_formed();
    let window = net.window(n, d, u)?;
    match flex(net, &window, n, budget) {
        Ok(flexibility) => verdict_with(&flexibility, new),
        Err(stop) => of_stop(stop),
    }
}

/// The same of a net whose flexibility in that window, which isn't too wide, is at hand, and below which each table is total. It
/// costs what the flexibility has to be asked.
pub fn verdict_with(flexibility: &Flexibility, new: &Cover) -> Result<NarrowVerdict, Memory>
    ensures { IfOk result
        (λ verdict. (net : NetParts) (n d u budget : ℕ) (old : Cover)
        → IsFlexHere net n d u budget flexibility.now
        → table_in (slot net.nets n) ≡ Some old → ReadsWithin old new.now
        → IsNarrowVerdict net n d u budget old new.now verdict) }
{
    match flexibility.judge(new) {
        Ok(verdict) => Ok(of_verdict(verdict)),
        Err(stop) => of_stop(stop),
    }
}

/// Whether each table below the net is total.
pub fn are_total_below(alloc: Global, net: &Network, n: NetId) -> Result<bool, Memory>
    ensures { IfOk result
        (λ total. MatchBool total (AreTotalBelow net.now.nets n.0)
        (AreTotalBelow net.now.nets n.0 → ⊥)) }
{
    let below = net.below(n)?;
    all_total(alloc, net, below.as_slice())
}

/// Whether each of the nets has a table that is total.
fn all_total(alloc: Global, net: &Network, nets: &[NetId]) -> Result<bool, Memory>
    ensures { IfOk result (λ total. MatchBool total
        (All (λ (m : NetId). IsTotalNet net.now.nets m.0) nets.now)
        (All (λ (m : NetId). IsTotalNet net.now.nets m.0) nets.now → ⊥)) }
{
    for m in nets {
        if !is_total(alloc, net, *m)? {
            return Ok(false);
        }
    }
    Ok(true)
}

/// Whether the net is held and has a table that is total.
fn is_total(alloc: Global, net: &Network, m: NetId) -> Result<bool, Memory>
    ensures { IfOk result
        (λ total. MatchBool total (IsTotalNet net.now.nets m.0) (IsTotalNet net.now.nets m.0 → ⊥)) }
{
    if !net.holds(m) {
        return Ok(false);
    }
    net.is_total(alloc, m)
}

/// The verdict where no flexibility is found, or it decides nothing.
fn of_stop(stop: FlexStop) -> Result<NarrowVerdict, Memory>
    ensures { IfOk result (λ verdict. IsStopVerdict stop verdict) }
{
    match stop {
        FlexStop::Window { levels: _ } => Ok(NarrowVerdict::TooWide),
        FlexStop::Nodes { cap: _ } => Ok(NarrowVerdict::NoNodes),
        FlexStop::Memory => Err(Memory),
    }
}

/// The verdict where the flexibility decides.
fn of_verdict(verdict: Verdict) -> NarrowVerdict
    ensures { result ≡ verdict_of verdict }
{
    match verdict {
        Verdict::Outside => NarrowVerdict::Outside,
        Verdict::Lost => NarrowVerdict::Lost,
        Verdict::Lawful => NarrowVerdict::Lawful,
    }
}
