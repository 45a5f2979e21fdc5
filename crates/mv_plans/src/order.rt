ghost use Rattle.std.specs.Prelude.{IsTrue, IfOk, MatchBool};
ghost use Rattle.mv_plans.specs.Orders.{
  AreAmong,
  ReadsNoMore,
  KeepsOrder,
  IsFrom,
  IsOver,
  IsFromReset,
  IsUnderReset,
  ReadsState,
};

use mv_base::{Memory, NetId};
use mv_cover::Cover;
use mv_net::{FlatLatch, Network, fanins_of_cover};
use std::alloc::Global;

/// Whether the net n may get a table in which the net d stands for its own lines: n is neither d nor
/// above it, the table reads neither n nor a net below it, and no latch output comes above a reset net.
/// It looks only at nets between two places of the kept order, and at latches only where the table, or
/// d, reads a net that n doesn't read.
pub fn keeps_order(
    alloc: Global,
    net: &Network,
    n: NetId,
    d: NetId,
    body: &Cover,
) -> Result<bool, Memory>
    ensures { IfOk result (λ yes. MatchBool yes (KeepsOrder net.now.nets n.0 d.0 body.now)
        (KeepsOrder net.now.nets n.0 d.0 body.now → ⊥)) }
{
    net.well_formed();
    if is_from(net, n, d)? {
        return Ok(false);
    }
    let fanins = fanins_of_cover(alloc, body)?;
    if is_over(net, fanins.as_slice(), n)? {
        return Ok(false);
    }
    if reads_no_more(net, n, d, fanins.as_slice()) {
        return Ok(true);
    }
    if !is_under_reset(net, net.latches(), n)? {
        return Ok(true);
    }
    Ok(!reads_state(net, net.latches(), fanins.as_slice())?)
}

/// Whether the net n is the net m, or above it.
fn is_from(net: &Network, n: NetId, m: NetId) -> Result<bool, Memory>
    ensures { IfOk result (λ yes. MatchBool yes (IsFrom net.now.nets n.0 m.0)
        (IsFrom net.now.nets n.0 m.0 → ⊥)) }
{
    if n == m {
        return Ok(true);
    }
    net.is_above(n, m)
}

/// Whether the net is one of these, or above one.
fn is_over(net: &Network, fanins: &[NetId], n: NetId) -> Result<bool, Memory>
    ensures { IfOk result (λ yes. MatchBool yes (IsOver net.now.nets fanins.now n.0)
        (IsOver net.now.nets fanins.now n.0 → ⊥)) }
{
    for fanin in fanins {
        if is_from(net, n, *fanin)? {
            return Ok(true);
        }
    }
    Ok(false)
}

/// Whether d has a table, and it is seen at once that n reads each of these nets but d, and each net
/// that d reads. What is above these is then above n already.
fn reads_no_more(net: &Network, n: NetId, d: NetId, fanins: &[NetId]) -> bool
    ensures { IsTrue result → ReadsNoMore net.now.nets n.0 d.0 fanins.now }
{
    if !net.holds(n) || !net.holds(d) {
        return false;
    }
    let Some(_table) = net.table(d) else {
        return false;
    };
    let own = net.fanins(n);
    are_among(fanins, d, own) && are_among(net.fanins(d), d, own)
}

/// Whether one walk along both lists, which should ascend, finds each of the nets but one among the others.
fn are_among(nets: &[NetId], but: NetId, others: &[NetId]) -> bool
    ensures { IsTrue result → AreAmong nets.now but.0 others.now }
{
    let mut i = 0;
    let mut j = 0;
    'walk: while i < nets.len() {
        if nets[i] == but {
            i += 1;
        } else if j == others.len() || nets[i].0 < others[j].0 {
            return false;
        } else if nets[i] == others[j] {
            i += 1;
        } else {
            j += 1;
        }
    }
    true
}

/// Whether the net is the reset net of one of the latches, or above one.
fn is_under_reset(net: &Network, latches: &[FlatLatch], n: NetId) -> Result<bool, Memory>
    ensures { IfOk result (λ yes. MatchBool yes (IsUnderReset net.now.nets latches.now n.0)
        (IsUnderReset net.now.nets latches.now n.0 → ⊥)) }
{
    for latch in latches {
        if is_from_reset(net, latch.reset, n)? {
            return Ok(true);
        }
    }
    Ok(false)
}

/// Whether there is a reset net, and the net is that or above it.
fn is_from_reset(net: &Network, reset: Option<NetId>, n: NetId) -> Result<bool, Memory>
    ensures { IfOk result (λ yes. MatchBool yes (IsFromReset net.now.nets n.0 reset)
        (IsFromReset net.now.nets n.0 reset → ⊥)) }
{
    match reset {
        Some(reset) => is_from(net, n, reset),
        None => Ok(false),
    }
}

/// Whether the output of one of the latches is one of the nets, or above one.
fn reads_state(net: &Network, latches: &[FlatLatch], fanins: &[NetId]) -> Result<bool, Memory>
    ensures { IfOk result (λ yes. MatchBool yes (ReadsState net.now.nets latches.now fanins.now)
        (ReadsState net.now.nets latches.now fanins.now → ⊥)) }
{
    for latch in latches {
        if is_over(net, fanins, latch.output)? {
            return Ok(true);
        }
    }
    Ok(false)
}
