//! All nets below a net, and all above one.
ghost use Rattle.std.specs.Prelude.{IsTrue, IfOk};
ghost use Rattle.mv_graph.specs.Above.{IsAbove};
ghost use Rattle.mv_net.specs.Index.{is_held};
ghost use Rattle.mv_net.specs.Nets.{reads_in};
ghost use Rattle.mv_net.specs.Searching.{LedFrom};
ghost use Rattle.mv_net.specs.Window.{Lists};

use crate::Network;
use crate::fanins::ascending;
use crate::search::{Way, add_nets};
use indexmap::IndexSet;
use mv_base::{Items, Memory, NetId};

impl Network {
    /// All nets below a net, ascending: those above which it is. Of a number that isn't held none. It costs what it
    /// answers with the readers of those nets, and a sort.
    pub fn below(&self, n: NetId) -> Result<Items<NetId>, Memory>
        ensures { IfOk result (λ nets. Lists (IsAbove (reads_in self.now.nets) n.0) nets) }
    {
        self.well_formed();
        if !self.holds(n) {
            return Ok(Items::new(self.parts().nets.allocator()));
        }
        self.led_from(Way::Down, n)
    }

    /// All nets above a net, ascending: those that it reads, those that these read, and so on. Of a number that isn't held
    /// none. It costs what it answers with the fanins of those nets, and a sort.
    pub fn above(&self, n: NetId) -> Result<Items<NetId>, Memory>
        ensures { IfOk result (λ nets. Lists (λ m. IsAbove (reads_in self.now.nets) m n.0) nets) }
    {
        if !self.holds(n) {
            return Ok(Items::new(self.parts().nets.allocator()));
        }
        self.led_from(Way::Up, n)
    }

    /// All nets to which steps lead from a held net, one step at least, ascending.
    fn led_from(&self, way: Way, n: NetId) -> Result<Items<NetId>, Memory>
        requires { IsTrue (is_held self.now.nets n.0) }
        ensures { IfOk result (λ nets. Lists (LedFrom self.now.nets way n.0) nets) }
    {
        self.well_formed();
        let alloc = self.parts().nets.allocator();
        let mut found = IndexSet::new(alloc);
        add_nets(&mut found, self.next(way, n))?;
        self.grow_all(way, &mut found)?;
        let nets = Vec::from_slice(alloc, found.as_slice())?;
        Ok(ascending(nets))
    }
}
