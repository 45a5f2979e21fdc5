//! Nets that are above themselves.
ghost use Rattle.std.specs.Prelude.{◌<◌, ◌≤◌, length, IfOk, IfSome, IfNone, MatchBool, All};
ghost use Rattle.mv_base.specs.declared.limits.TheConstants.{MAX_NETS};
ghost use Rattle.mv_base.specs.declared.number.NetId.{NetId};
ghost use Rattle.mv_graph.specs.Nets.{AllBelow};
ghost use Rattle.mv_graph.specs.Above.{IsAbove, reads_by};
ghost use Rattle.mv_cycles.specs.Cycles.{IsTurning, NoneTurns};
ghost use Rattle.mv_cycles.specs.Ranks.{IsRanking};

use crate::lookup::{has_mark, row_of};
use crate::ranking::{are_lower, ranks};
use crate::walk::marks_above;
use mv_base::{Items, MAX_NETS, Memory, NetId};
use std::alloc::Global;

/// The place of the first of these nets that is above itself. The time grows with the number of nets and of the columns of
/// all nets and of these.
///
/// The algorithm certifies itself (McConnell, Mehlhorn, Näher and Schweitzer 2011): ranks are guessed and tested once, and
/// then a net is seen by the ranks of its columns not to be above itself. A walk decides of each other net. Where the guess is
/// right, as it is meant to be, the first net that is walked from is above itself, so that there is one walk at most; were it
/// wrong, the answer would be the same and only come later.
pub fn first_turning(
    alloc: Global,
    columns: &[Items<NetId>],
    order: &[NetId],
) -> Result<Option<usize>, Memory>
    requires below { AllBelow columns.now }
    requires nets { All (λ (n : NetId). n.0 < length columns.now) order.now }
    requires few { length columns.now ≤ MAX_NETS }
    ensures some { IfOk result
        (λ found. IfSome found (λ place. IsTurning columns.now order.now place)) }
    ensures none { IfOk result (λ found. IfNone found (NoneTurns columns.now order.now)) }
{
    let ranks = ranks(alloc, columns)?;
    for place in 0..order.len() {
        if is_turning(alloc, columns, ranks.as_slice(), order[place])? {
            return Ok(Some(place));
        }
    }
    Ok(None)
}

/// Whether the net is above itself. Where its columns all have lower ranks it isn't, and no walk is needed.
fn is_turning(
    alloc: Global,
    columns: &[Items<NetId>],
    ranks: &[usize],
    net: NetId,
) -> Result<bool, Memory>
    requires below { AllBelow columns.now }
    requires net { net.0 < length columns.now }
    requires ranks { IsRanking columns.now ranks.now }
    ensures { IfOk result
        (λ turns. MatchBool turns (IsAbove (reads_by columns.now) net.0 net.0)
        (IsAbove (reads_by columns.now) net.0 net.0 → ⊥)) }
{
    if are_lower(ranks, row_of(columns, net), net) {
        return Ok(false);
    }
    let marks = marks_above(alloc, columns, net)?;
    Ok(has_mark(marks.as_slice(), net))
}
