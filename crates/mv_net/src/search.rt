//! Nets that are found by steps from a net to those that read it, or to those that it reads.
ghost use Rattle.std.specs.Prelude.{◌≡◌, ◌+◌, ◌<◌, length, IsTrue, IfOk, OnOk};
ghost use Rattle.mv_graph.specs.Nets.{has_id, IsAscending};
ghost use Rattle.mv_net.specs.Index.{is_held};
ghost use Rattle.mv_net.specs.Searching.{leads, Reached, AreHeld, HasExactly, HasAdded, HasSpread, HasAll};

use crate::Network;
use indexmap::IndexSet;
use mv_base::{Memory, NetId};

/// Where a step leads: down to the nets that read a net, or up to those that it reads.
#[derive(Clone, Copy)]
pub enum Way {
    Down,
    Up,
}

impl Network {
    /// The nets to which a step leads from a held net.
    pub(crate) fn next(&self, way: Way, net: NetId) -> &[NetId]
        requires { IsTrue (is_held self.now.nets net.0) }
        ensures { IsAscending (leads self.now.nets way net.0) result.now }
    {
        match way {
            Way::Down => self.readers(net),
            Way::Up => self.fanins(net),
        }
    }

    /// Adds the nets to which a step leads from the net at this place of those found.
    fn step(&self, way: Way, found: &mut IndexSet<NetId>, place: usize) -> Result<(), Memory>
        requires inside { place < length found.old.keys }
        requires held { AreHeld self.now.nets found.old.keys }
        ensures { OnOk result
            (HasSpread self.now.nets way place (place + 1) found.old.keys found.new.keys) }
    {
        self.well_formed();
        let net = found.as_slice()[place];
        add_nets(found, self.next(way, net))
    }

    /// Adds the nets to which a step leads from those found, from this place on.
    fn spread(&self, way: Way, found: &mut IndexSet<NetId>, start: usize) -> Result<(), Memory>
        requires { AreHeld self.now.nets found.old.keys }
        ensures { OnOk result
            (HasSpread self.now.nets way start
            (length found.old.keys) found.old.keys found.new.keys) }
    {
        for place in start..found.len() {
            self.step(way, found, place)?;
        }
        Ok(())
    }

    /// Adds the nets to which at most so many steps lead from those found. Each step is taken once, from the nets that the
    /// step before found.
    pub(crate) fn grow(
        &self,
        way: Way,
        found: &mut IndexSet<NetId>,
        steps: u8,
    ) -> Result<(), Memory>
        requires { AreHeld self.now.nets found.old.keys }
        ensures held { OnOk result (AreHeld self.now.nets found.new.keys) }
        ensures members { OnOk result
            (HasExactly (Reached self.now.nets way found.old.keys steps) found.new.keys) }
    {
        let mut start = 0;
        for _step in 0..steps {
            let end = found.len();
            self.spread(way, found, start)?;
            start = end;
        }
        Ok(())
    }

    /// Adds the nets to which steps lead from those found.
    pub(crate) fn grow_all(&self, way: Way, found: &mut IndexSet<NetId>) -> Result<(), Memory>
        requires { AreHeld self.now.nets found.old.keys }
        ensures { OnOk result (HasAll self.now.nets way found.old.keys found.new.keys) }
    {
        let mut start = 0;
        while start < found.len() {
            let end = found.len();
            self.spread(way, found, start)?;
            start = end;
        }
        Ok(())
    }
}

/// Puts these nets behind those found, each unless it is there.
pub(crate) fn add_nets(found: &mut IndexSet<NetId>, nets: &[NetId]) -> Result<(), Memory>
    ensures { OnOk result (HasAdded found.old.keys nets.now found.new.keys) }
{
    for net in nets {
        found.insert(*net)?;
    }
    Ok(())
}
