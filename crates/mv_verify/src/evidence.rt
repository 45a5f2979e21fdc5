ghost use Rattle.std.specs.Prelude.{◌≡◌, ◌+◌, ◌-◌, ◌^◌, ◌<◌, ◌≤◌, IfOk, drop, length};
ghost use Rattle.mv_verify.specs.Evidence.{spread, IsPushed, IsPointOf, IsChoiceOf};

use crate::{Choice, Point};
use mv_base::{Memory, Value};
use mv_net::{FlatLatch, Network};
use mv_trace::Values;
use std::alloc::Global;

/// These values as a list.
fn values_of(alloc: Global, values: &[u16]) -> Result<Values, Memory>
    ensures { IfOk result (λ list. list ≡ values.now) }
{
    let mut list = Vec::with_capacity(alloc, values.len())?;
    for value in values {
        list.push(Value(*value))?;
    }
    Values::new(alloc, list.as_slice())
}

/// Puts the reset value of a latch behind the others: the value at this place for a latch with a reset net, else 0. It
/// answers the place of the next.
fn push_reset(
    resets: &mut Vec<u16>,
    latch: &FlatLatch,
    values: &[u16],
    place: usize,
) -> Result<usize, Memory>
    requires { place < 2 ^ 64 - 1 }
    ensures pushed { IfOk result (λ next. IsPushed latch.now.reset (drop place values.now)
        (drop next values.now) resets.old.items resets.new.items) }
    ensures few { IfOk result (λ next. next ≤ place + 1) }
{
    match latch.reset {
        None => {
            resets.push(0)?;
            Ok(place)
        }
        Some(_) => {
            resets.push(values.get(place).copied().unwrap_or(0))?;
            Ok(place + 1)
        }
    }
}

/// The reset values of the latches, where their reset nets have these values in turn: 0 for a latch without one.
fn resets_of(alloc: Global, latches: &[FlatLatch], values: &[u16]) -> Result<Vec<u16>, Memory>
    ensures { IfOk result (λ resets. resets.items ≡ spread latches.now values.now) }
{
    let mut resets = Vec::with_capacity(alloc, latches.len())?;
    let mut place = 0;
    for latch in latches {
        place = push_reset(&mut resets, latch, values, place)?;
    }
    Ok(resets)
}

/// The point of the values of the ports that make one.
pub fn point_of(alloc: Global, net: &Network, values: &[u16]) -> Result<Point, Memory>
    requires { length values.now ≡ length net.now.inputs + length net.now.latches }
    ensures { IfOk result (λ p. IsPointOf net.now values.now p) }
{
    let (inputs, latches) = values.split_at(net.inputs().len());
    Ok(Point {
        inputs: values_of(alloc, inputs)?,
        latches: values_of(alloc, latches)?,
    })
}

/// The choice of the values of the ports that make one.
pub fn choice_of(alloc: Global, net: &Network, values: &[u16]) -> Result<Choice, Memory>
    requires { length net.now.outputs + length net.now.latches ≤ length values.now }
    ensures { IfOk result (λ c. IsChoiceOf net.now values.now c) }
{
    let (outputs, others) = values.split_at(net.outputs().len());
    let (next, resets) = others.split_at(net.latches().len());
    let resets = resets_of(alloc, net.latches(), resets)?;
    Ok(Choice {
        outputs: values_of(alloc, outputs)?,
        next: values_of(alloc, next)?,
        resets: values_of(alloc, resets.as_slice())?,
    })
}
