ghost use Rattle.std.specs.Prelude.{◌^◌, ◌<◌, length, IfOk, OnOk, MatchOption};
ghost use Rattle.mv_agenda.specs.Agenda.{NoneWaits, Puts, PutsAll, TakesLeast, WaitBelow};

use mv_base::{Memory, NetId};
use std::alloc::Global;
use std::collections::BTreeSet;
use std::marker::Model;

/// Nets that are still to be looked at, each once; the least comes first.
#[derive(Drop)]
pub struct Agenda {
    nets: BTreeSet<u32>,
}

impl Model for Agenda {
    ghost use Rattle.std.specs.Prelude.{List, ℕ};

    ghost Value = { List ℕ };

    ghost view = { λ a. a.nets.keys };
}

impl Agenda {
    /// All numbers below the end.
    pub fn of_all(alloc: Global, end: u32) -> Result<Agenda, Memory>
        ensures { IfOk result (λ agenda. WaitBelow agenda end) }
    {
        let mut nets = BTreeSet::new(alloc);
        for number in 0..end {
            nets.insert(number)?;
        }
        Ok(Agenda { nets })
    }

    /// Puts a net to the others. On an error nothing is said of what waits.
    pub fn put(&mut self, n: NetId) -> Result<(), Memory>
        ensures { OnOk result (Puts self.old self.new n.0) }
    {
        self.nets.insert(n.0)?;
        Ok(())
    }

    /// Puts each of these nets to the others. On an error nothing is said of what waits.
    pub fn put_all(&mut self, nets: &[NetId]) -> Result<(), Memory>
        ensures { OnOk result (PutsAll self.old self.new nets.now) }
    {
        for n in nets {
            self.put(*n)?;
        }
        Ok(())
    }

    /// No more wait than memory holds.
    pub fn few(&self)
        ensures { length self.now < 2 ^ 63 }
    {
        let _ = self.nets.len();
    }

    /// Takes out the least, if any waits.
    pub fn take_least(&mut self) -> Option<NetId>
        ensures { MatchOption result (NoneWaits self.old) (λ n. TakesLeast self.old self.new n.0) }
    {
        let Some(number) = self.nets.pop_first() else {
            return None;
        };
        Some(NetId(number))
    }
}
