ghost use Rattle.std.specs.Prelude.{◌≡◌, ℕ, ◌<◌, true, map, length, IfOk};
ghost use Rattle.mv_graph.specs.Nets.{has_id};
ghost use Rattle.mv_net.specs.Index.{is_reset, kind_in, is_latch_input};
ghost use Rattle.mv_net.specs.Seen.{AlsoMarked, SeenAreHeld, AreSeen};

use crate::{FlatLatch, FlatNet, Kind, NetParts};
use mv_base::{Items, Memory, NetId};
use std::alloc::Global;

/// Whether the net is a held reset net.
fn is_reset_net(net: &Option<FlatNet>) -> bool
    ensures { result ≡ is_reset (kind_in net.now) }
{
    match net {
        Some(held) => held.kind == Kind::Reset,
        None => false,
    }
}

/// The marks of the reset nets, by number.
fn reset_marks(alloc: Global, nets: &[Option<FlatNet>]) -> Result<Items<bool>, Memory>
    ensures { IfOk result (λ marks. marks ≡ map (λ f. is_reset (kind_in f)) nets.now) }
{
    let mut marks = Items::new(alloc);
    for net in nets {
        marks.push(is_reset_net(net))?;
    }
    Ok(marks)
}

/// Marks these nets too.
fn mark_nets(marks: &mut Items<bool>, nets: &[NetId])
    requires { (n : ℕ) → has_id nets.now n ≡ true → n < length marks.old }
    ensures { AlsoMarked marks.old (has_id nets.now) marks.new }
{
    for net in nets {
        marks.replace(net.0 as usize, true);
    }
}

/// Marks the inputs of these latches too.
fn mark_inputs(marks: &mut Items<bool>, latches: &[FlatLatch])
    requires { (n : ℕ) → is_latch_input latches.now n ≡ true → n < length marks.old }
    ensures { AlsoMarked marks.old (is_latch_input latches.now) marks.new }
{
    for latch in latches {
        marks.replace(latch.input.0 as usize, true);
    }
}

/// Whether each net is seen, by number.
pub fn seen_of(alloc: Global, parts: &NetParts) -> Result<Items<bool>, Memory>
    requires { SeenAreHeld parts.now }
    ensures { IfOk result (λ marks. AreSeen parts.now marks) }
{
    let mut marks = reset_marks(alloc, parts.nets.as_slice())?;
    mark_nets(&mut marks, parts.outputs.as_slice());
    mark_inputs(&mut marks, parts.latches.as_slice());
    Ok(marks)
}
