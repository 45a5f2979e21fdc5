ghost use Rattle.std.specs.Prelude.{◌≡◌, ◌↔◌, ◌<◌, ◌≤◌, ◌++◌, ℕ, true, IfOk, OnOk, MatchBool, length, slice_index};
ghost use Rattle.mv_graph.specs.Nets.{has_id};
ghost use Rattle.mv_graph.specs.Sorting.{net_at};
ghost use Rattle.mv_net.specs.Formed.{WellFormed, latch_outputs, latch_resets};
ghost use Rattle.mv_solve.specs.Asked.{HasAsked};
ghost use Rattle.mv_verify.specs.Sides.{latch_inputs, point_ports, ports_of, count_at, AreAt, Shows};

use mv_base::{Memory, NetId, Value};
use mv_net::{FlatLatch, Network};
use mv_solve::Solver;
use std::alloc::Global;
use std::marker::Model;

/// A network with its nets that are seen from outside, and what looks for an assignment with given values at these. The
/// order of the nets is the same for networks that look alike. It is seen as the network.
#[derive(Drop)]
pub struct Side<'a> {
    net: &'a Network,
    ports: Vec<NetId>,
    solver: Solver,
}

impl<'a> Model for Side<'a> {
    ghost use Rattle.mv_net.specs.declared.parts.NetParts.{NetParts};

    ghost Value = { NetParts };

    ghost use Rattle.mv_verify.specs.Sides.{IsSide};

    ghost view = { λ s. s.net.now };

    ghost invariant = { λ s. IsSide s.net.now s.ports.items s.solver };
}

impl<'a> Side<'a> {
    /// That of a network. It takes all memory.
    pub fn new(alloc: Global, net: &'a Network) -> Result<Side<'a>, Memory>
        ensures { IfOk result (λ side. side ≡ net.now) }
    {
        Ok(Side {
            net,
            ports: ports_of(alloc, net)?,
            solver: Solver::with_room(net)?,
        })
    }

    /// The network.
    pub fn net(&self) -> &'a Network
        ensures { result.now ≡ self.now }
    {
        self.net
    }

    /// The network is well formed.
    pub fn well_formed(&self)
        ensures { WellFormed self.now }
    {
        self.net.well_formed();
    }

    /// How many ports there are. No memory.
    pub fn len(&self) -> usize
        ensures { result ≡ length (ports_of self.now) }
    {
        self.ports.len()
    }

    /// How many of the first ports make a point. No memory.
    pub fn points(&self) -> usize
        ensures count { result ≡ length (point_ports self.now) }
        ensures within { result ≤ length (ports_of self.now) }
    {
        self.net.inputs().len() + self.net.latches().len()
    }

    /// How many values the port at a place has. No memory.
    pub fn count(&self, place: usize) -> u16
        requires { place < length (ports_of self.now) }
        ensures { result ≡ count_at self.now place }
    {
        self.net.well_formed();
        let ports = self.ports.as_slice();
        self.net.values(ports[place])
    }

    /// Whether the network has an assignment with the first of these values, up to `end`, at the first ports. No memory.
    pub fn shows(&mut self, values: &[u16], end: usize) -> bool
        requires inside { end ≤ length values.now }
        requires room { end ≤ length (ports_of self.old) }
        ensures shown { MatchBool result
            (Shows self.old end (slice_index values.now))
            (Shows self.old end (slice_index values.now) → ⊥) }
        ensures same { self.new ≡ self.old }
    {
        self.net.well_formed();
        ask(&mut self.solver, self.ports.as_slice(), values, end);
        self.solver.solve(self.net)
    }
}

/// Asks for the first of these values, up to `end`, at the first ports, and for nothing else.
fn ask(solver: &mut Solver, ports: &[NetId], values: &[u16], end: usize)
    requires held { (k : ℕ) → k < length ports.now
        → has_id solver.old.order (net_at ports.now k) ≡ true }
    requires inside { end ≤ length values.now }
    requires room { end ≤ length ports.now }
    ensures asked { (at : ℕ → ℕ) → HasAsked solver.new.order solver.new.asked at
        ↔ AreAt ports.now end at (slice_index values.now) }
    ensures order { solver.new.order ≡ solver.old.order }
{
    solver.clear();
    for place in 0..end {
        solver.give(ports[place], Value(values[place]));
    }
}

/// The ports of a network: its inputs and the outputs of its latches, then its outputs, the inputs of its latches and
/// their reset nets.
#[tactic(auto, unfolding(crate::specs::Sides::ports_of, crate::specs::Sides::point_ports, crate::specs::Sides::choice_ports))]
fn ports_of(alloc: Global, net: &Network) -> Result<Vec<NetId>, Memory>
    ensures { IfOk result (λ ports. ports.items ≡ ports_of net.now) }
{
    let mut ports = Vec::from_slice(alloc, net.inputs())?;
    add_latch_outputs(&mut ports, net.latches())?;
    ports.extend_from_slice(net.outputs())?;
    add_latch_inputs(&mut ports, net.latches())?;
    add_latch_resets(&mut ports, net.latches())?;
    Ok(ports)
}

/// Puts the outputs of the latches behind the nets.
fn add_latch_outputs(nets: &mut Vec<NetId>, latches: &[FlatLatch]) -> Result<(), Memory>
    ensures { OnOk result (nets.new.items ≡ nets.old.items ++ latch_outputs latches.now) }
{
    for latch in latches {
        nets.push(latch.output)?;
    }
    Ok(())
}

/// Puts the inputs of the latches behind the nets.
fn add_latch_inputs(nets: &mut Vec<NetId>, latches: &[FlatLatch]) -> Result<(), Memory>
    ensures { OnOk result (nets.new.items ≡ nets.old.items ++ latch_inputs latches.now) }
{
    for latch in latches {
        nets.push(latch.input)?;
    }
    Ok(())
}

/// Puts the reset nets of the latches behind the nets.
fn add_latch_resets(nets: &mut Vec<NetId>, latches: &[FlatLatch]) -> Result<(), Memory>
    ensures { OnOk result (nets.new.items ≡ nets.old.items ++ latch_resets latches.now) }
{
    for latch in latches {
        if let Some(net) = latch.reset {
            nets.push(net)?;
        }
    }
    Ok(())
}
