//! Whether reset values stand apart from the latches: which latches are above which nets.
ghost use Rattle.std.specs.Prelude.{◌≡◌, ◌<◌, All, Contains, length, IfErr, IfOk, OnOk, ◌≤◌};
ghost use Rattle.mv_base.specs.declared.limits.TheConstants.{MAX_FLAT_NETS};
ghost use Rattle.mv_graph.specs.Nets.{AllBelow};
ghost use Rattle.mv_graph.specs.Orders.{IsSortedBy};
ghost use Rattle.mv_design.specs.Nets.{drivers};
ghost use Rattle.mv_acyclic.specs.Sound.{IsDrivenOnce, StandsAlone};
ghost use Rattle.mv_acyclic.specs.Alone.{AreLatchesAbove, AreLeastAbove, IsLeast, IsNumberAbove, IsBetween, TellsAlone, TellsReading, least_from, lesser_of};
ghost use Rattle.mv_acyclic.specs.Columns.{columns_by_net};

use crate::Numbers;
use crate::resets::output;
use mv_base::{Items, MAX_FLAT_NETS, Memory, NetId};
use mv_design::{FileModel, FileTable};
use mv_fault::FlatFault;
use std::alloc::Global;

/// Tells the first reset table that has a latch output above its reset value, and the first such output. `order` has the
/// driven nets, each behind its columns.
pub fn check_alone(
    alloc: Global,
    model: &FileModel,
    numbers: &Numbers,
    columns: &[Items<NetId>],
    order: &[NetId],
) -> Result<(), FlatFault>
    requires once { IsDrivenOnce model.now }
    requires numbers { numbers.now ≡ drivers model.now }
    requires few { length numbers.now ≤ MAX_FLAT_NETS }
    requires columns { columns.now ≡ columns_by_net (drivers model.now) model.now }
    requires order { IsSortedBy columns.now order.now }
    ensures alone { OnOk result (All (StandsAlone model.now) model.now.resets) }
    ensures fault { IfErr result (λ f. TellsAlone model.now f) }
{
    if model.resets.is_empty() {
        return Ok(());
    }
    let low = model.inputs.len();
    let above = least_above(alloc, columns, order, low, low + model.latches.len())?;
    for reset in model.resets.as_slice() {
        check_reset(alloc, model, numbers, above.as_slice(), reset)?;
    }
    Ok(())
}

/// The same of one reset table of the model.
fn check_reset(
    alloc: Global,
    model: &FileModel,
    numbers: &Numbers,
    above: &[Option<NetId>],
    reset: &FileTable,
) -> Result<(), FlatFault>
    requires once { IsDrivenOnce model.now }
    requires numbers { numbers.now ≡ drivers model.now }
    requires few { length numbers.now ≤ MAX_FLAT_NETS }
    requires above { AreLatchesAbove model.now above.now }
    requires reset { Contains model.now.resets reset.now }
    ensures alone { OnOk result (StandsAlone model.now reset.now) }
    ensures fault { IfErr result (λ f. TellsReading model.now reset.now f) }
{
    let Some(net) = latch_above(alloc, model, numbers, above, reset)? else {
        return Ok(());
    };
    let place = net.0 as usize - model.inputs.len();
    Err(FlatFault::ResetReadsLatch {
        latch: output(alloc, reset)?,
        reached: model.latches.as_slice()[place].output.copy()?,
    })
}

/// The first latch output above the reset value of a reset table of the model, by number.
fn latch_above(
    alloc: Global,
    model: &FileModel,
    numbers: &Numbers,
    above: &[Option<NetId>],
    reset: &FileTable,
) -> Result<Option<NetId>, Memory>
    requires once { IsDrivenOnce model.now }
    requires numbers { numbers.now ≡ drivers model.now }
    requires few { length numbers.now ≤ MAX_FLAT_NETS }
    requires above { AreLatchesAbove model.now above.now }
    requires reset { Contains model.now.resets reset.now }
    ensures { IfOk result (λ net. IsLeast (IsNumberAbove model.now reset.now) net) }
{
    let inputs = numbers.list(alloc, reset.inputs.as_slice())?;
    Ok(least_of(above, None, inputs.as_slice()))
}

/// For each net the least of the numbers from `low` up to `high` that is the net, or above it. In the order each net is behind
/// its columns.
fn least_above(
    alloc: Global,
    columns: &[Items<NetId>],
    order: &[NetId],
    low: usize,
    high: usize,
) -> Result<Vec<Option<NetId>>, Memory>
    requires below { AllBelow columns.now }
    requires order { IsSortedBy columns.now order.now }
    ensures { IfOk result (λ above. AreLeastAbove columns.now low high above.items) }
{
    let mut above = vec![in alloc; None; columns.len()]?;
    for net in order {
        let at = net.0 as usize;
        let least = least_of(
            above.as_slice(),
            within(*net, low, high),
            columns[at].as_slice(),
        );
        above[at] = least;
    }
    Ok(above)
}

/// The net, if its number is one of these.
fn within(net: NetId, low: usize, high: usize) -> Option<NetId>
    ensures { IsLeast (λ k. IsBetween low high k × (k ≡ net.0)) result }
{
    let at = net.0 as usize;
    if low <= at && at < high {
        Some(net)
    } else {
        None
    }
}

/// The least of a number and of those that stand at these nets.
fn least_of(above: &[Option<NetId>], first: Option<NetId>, nets: &[NetId]) -> Option<NetId>
    requires { All (λ (n : NetId). n.0 < length above.now) nets.now }
    ensures { result ≡ least_from above.now first nets.now }
{
    let mut least = first;
    for net in nets {
        least = lesser(least, above[net.0 as usize]);
    }
    least
}

/// The lesser of two numbers, where there are two.
fn lesser(one: Option<NetId>, other: Option<NetId>) -> Option<NetId>
    ensures { result ≡ lesser_of one other }
{
    match (one, other) {
        (Some(a), Some(b)) => Some(if a.0 <= b.0 { a } else { b }),
        (Some(a), None) => Some(a),
        (None, b) => b,
    }
}
