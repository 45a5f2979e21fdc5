//! The nets above a net.
ghost use Rattle.std.specs.Prelude.{◌<◌, ◌∷◌, ◌+◌, [], length, IfOk, OnOk, All};
ghost use Rattle.mv_base.specs.declared.number.NetId.{NetId};
ghost use Rattle.mv_graph.specs.Nets.{AllBelow};
ghost use Rattle.mv_graph.specs.Marks.{AreAbove};
ghost use Rattle.mv_cycles.specs.Walking.{HasMarked, IsBlank, IsWalk};

use mv_base::{Items, Memory, NetId};
use std::alloc::Global;

/// Nets that are marked, by number, and listed in the order in which they were.
#[derive(Drop)]
pub struct Walk {
    marks: Vec<bool>,
    listed: Vec<NetId>,
}

/// The marks of the nets above a net. The time grows with the number of those nets and their columns.
pub fn marks_above(alloc: Global, columns: &[Items<NetId>], net: NetId) -> Result<Vec<bool>, Memory>
    requires below { AllBelow columns.now }
    requires net { net.0 < length columns.now }
    ensures { IfOk result (λ marks. AreAbove columns.now net.0 marks.items) }
{
    let mut walk = Walk::new(alloc, columns.len())?;
    walk.mark(columns[net.0 as usize].as_slice())?;
    walk.go(columns, net)?;
    Ok(walk.marks)
}

impl Walk {
    /// No net is marked.
    fn new(alloc: Global, size: usize) -> Result<Self, Memory>
        ensures { IfOk result (λ walk. IsBlank walk size) }
    {
        Ok(Walk {
            marks: vec![in alloc; false; size]?,
            listed: Vec::new(alloc),
        })
    }

    /// Goes along the list, and marks the columns of each of its nets. `net` is the net below.
    fn go(&mut self, columns: &[Items<NetId>], net: NetId) -> Result<(), Memory>
        requires below { AllBelow columns.now }
        requires walk { IsWalk columns.now net.0 self.old 0 }
        ensures { OnOk result (IsWalk columns.now net.0 self.new (length self.new.listed.items)) }
    {
        let mut place = 0;
        while place < self.listed.len() {
            self.step(columns, net, place)?;
            place += 1;
        }
        Ok(())
    }

    /// Marks the columns of the net at this place of the list.
    fn step(&mut self, columns: &[Items<NetId>], net: NetId, place: usize) -> Result<(), Memory>
        requires below { AllBelow columns.now }
        requires walk { IsWalk columns.now net.0 self.old place }
        requires inside { place < length self.old.listed.items }
        ensures { OnOk result (IsWalk columns.now net.0 self.new (place + 1)) }
    {
        let above = self.listed[place];
        self.mark(columns[above.0 as usize].as_slice())
    }

    /// Marks these nets.
    fn mark(&mut self, nets: &[NetId]) -> Result<(), Memory>
        requires { All (λ (n : NetId). n.0 < length self.old.marks.items) nets.now }
        ensures { OnOk result (HasMarked self.old self.new nets.now) }
    {
        for net in nets {
            self.mark_net(*net)?;
        }
        Ok(())
    }

    /// Marks a net.
    fn mark_net(&mut self, net: NetId) -> Result<(), Memory>
        requires { net.0 < length self.old.marks.items }
        ensures { OnOk result (HasMarked self.old self.new (net ∷ [])) }
    {
        let number = net.0 as usize;
        if self.marks[number] {
            return Ok(());
        }
        self.listed.push(net)?;
        self.marks[number] = true;
        Ok(())
    }
}
