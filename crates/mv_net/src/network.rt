ghost use Rattle.std.specs.Prelude.{◌≡◌, ℕ, ◌+◌, ◌*◌, ◌^◌, ◌<◌, ◌≤◌, Some, IsTrue, map, length, option_copied, IfOk, IfSome, IsNone, OnOk, OnErr, MatchBool};
ghost use Rattle.mv_base.specs.declared.number.NetId.{NetId};
ghost use Rattle.mv_net.specs.Nets.{slot, values_in, name_in, table_in, net_reads, reads_in, literals_in};
ghost use Rattle.mv_net.specs.Formed.{WellFormed};
ghost use Rattle.mv_graph.specs.Nets.{IsAscending};
ghost use Rattle.mv_net.specs.Index.{is_held, kind_in, value_names_in, is_seen, HasName};
ghost use Rattle.mv_net.specs.Changes.{changed, Fits};
ghost use Rattle.mv_net.specs.Fresh.{AreMade};
ghost use Rattle.mv_graph.specs.Above.{IsAbove};
ghost use Rattle.mv_net.specs.Order.{IsOrder};

use crate::in_place::put_change;
use crate::kept::{Kept, kept_of};
use crate::{Change, FlatLatch, FlatNet, Kind, NetParts};
use mv_base::{Items, MAX_NETS, Memory, Name, NetId};
use mv_cover::Cover;
use std::alloc::Global;
use std::marker::Model;

/// A well-formed network, seen as its parts. What is looked up in it is kept beside them.
#[derive(Drop)]
pub struct Network {
    parts: NetParts,
    kept: Kept,
}

impl Model for Network {
    ghost use Rattle.mv_net.specs.declared.parts.NetParts.{NetParts};

    ghost Value = { NetParts };

    ghost use Rattle.mv_net.specs.Kept.{IsNetwork};

    ghost view = { λ a. a.parts };

    ghost invariant = { λ a. IsNetwork a.parts a.kept };
}

impl Network {
    /// The network of these parts: the net at place k has the number k.
    pub fn make(alloc: Global, parts: NetParts) -> Result<Network, Memory>
        requires few { length parts.nets ≤ MAX_NETS }
        requires formed { WellFormed parts }
        ensures { IfOk result (λ net. net ≡ parts) }
    {
        let kept = kept_of(alloc, &parts)?;
        Ok(Network { parts, kept })
    }

    /// Changes the network: nets come, get other tables or numbers of values, or go. New nets get the numbers from
    /// `next_number` on; a number that goes isn't used again. The change has to fit: the nets that get tables, those that
    /// get numbers of values and those that go are held, each once in its list, none that goes gets anything, and no net,
    /// not even one that goes, has the name of one that comes. All memory is taken first: on an error the network is as
    /// before. It costs what it changes: the tables that are given, and where a net comes to read one that stood behind it
    /// in the kept order, those that stand between the two.
    pub fn change(&mut self, change: Change) -> Result<(), Memory>
        requires few { length self.old.nets + length change.add ≤ MAX_NETS }
        requires fits { Fits self.old change }
        requires formed { WellFormed (changed self.old change) }
        ensures ok { OnOk result (self.new ≡ changed self.old change) }
        ensures err { OnErr result (self.new ≡ self.old) }
    {
        put_change(&mut self.parts, &mut self.kept, change)
    }

    /// The parts of the network are well formed.
    pub fn well_formed(&self)
        ensures { WellFormed self.now }
    {
        let _ = &self.parts;
    }

    /// No more than `MAX_NETS` numbers are used.
    pub fn few(&self)
        ensures { length self.now.nets ≤ MAX_NETS }
    {
        let _ = &self.parts;
    }

    /// The parts of the network. No memory.
    pub fn parts(&self) -> &NetParts
        ensures { result.now ≡ self.now }
    {
        &self.parts
    }

    /// The name of the root. No memory.
    pub fn root(&self) -> &[u8]
        ensures { result.now ≡ self.now.root }
    {
        self.parts.root.bytes()
    }

    /// The inputs of the root, in order. No memory.
    pub fn inputs(&self) -> &[NetId]
        ensures { result.now ≡ self.now.inputs }
    {
        self.parts.inputs.as_slice()
    }

    /// The outputs of the root, in order. No memory.
    pub fn outputs(&self) -> &[NetId]
        ensures { result.now ≡ self.now.outputs }
    {
        self.parts.outputs.as_slice()
    }

    /// The latches, in order. No memory.
    pub fn latches(&self) -> &[FlatLatch]
        ensures { result.now ≡ self.now.latches }
    {
        self.parts.latches.as_slice()
    }

    /// The numbers of values by number of net, 0 where none is held. No memory.
    pub fn counts(&self) -> &[u16]
        ensures { result.now ≡ map values_in self.now.nets }
    {
        self.kept.tallies.counts.as_slice()
    }

    /// The literals of all tables, each of which counts one. No memory.
    pub fn literals(&self) -> u128
        ensures { result ≡ literals_in self.now.nets }
    {
        self.kept.tallies.literals
    }

    /// The number that the next new net gets. No memory.
    pub fn next_number(&self) -> u32
        ensures { result ≡ length self.now.nets }
    {
        self.parts.nets.len() as u32
    }

    /// Whether a net of this number is held. No memory.
    pub fn holds(&self, n: NetId) -> bool
        ensures { result ≡ is_held self.now.nets n.0 }
    {
        match self.parts.nets.as_slice().get(n.0 as usize) {
            Some(net) => net.is_some(),
            None => false,
        }
    }

    /// The held net with this name, if there is one. No memory.
    pub fn find(&self, name: &[u8]) -> Option<NetId>
        ensures some { IfSome result (λ n. HasName self.now.nets n.0 name.now) }
        ensures none { IsNone result → (n : ℕ) → ¬ HasName self.now.nets n name.now }
    {
        match self.kept.names.number(name) {
            Some(number) => Some(NetId(number)),
            None => None,
        }
    }

    /// The literals of all tables are no more than memory holds.
    pub(crate) fn few_literals(&self)
        ensures { literals_in self.now.nets ≤ 2 ^ 96 * MAX_NETS }
    {
        let _ = &self.parts;
    }

    /// Nets have all made names with positive numbers up to this.
    pub(crate) fn made(&self) -> u32
        ensures { AreMade self.now.nets result }
    {
        self.kept.made
    }

    /// The held net of this number.
    fn held(&self, n: NetId) -> &FlatNet
        requires { IsTrue (is_held self.now.nets n.0) }
        ensures { slot self.now.nets n.0 ≡ Some result.now }
    {
        self.parts.nets.as_slice()[n.0 as usize].as_ref().unwrap()
    }

    /// The name of a held net. No memory.
    pub fn name(&self, n: NetId) -> &[u8]
        requires { IsTrue (is_held self.now.nets n.0) }
        ensures { result.now ≡ name_in (slot self.now.nets n.0) }
    {
        self.held(n).name.bytes()
    }

    /// What drives a held net. No memory.
    pub fn kind(&self, n: NetId) -> Kind
        requires { IsTrue (is_held self.now.nets n.0) }
        ensures { kind_in (slot self.now.nets n.0) ≡ Some result }
    {
        self.held(n).kind
    }

    /// How many values a held net has. No memory.
    pub fn values(&self, n: NetId) -> u16
        requires { IsTrue (is_held self.now.nets n.0) }
        ensures { result ≡ values_in (slot self.now.nets n.0) }
    {
        self.held(n).values
    }

    /// The value names of a held net: none exactly where they are the numbers from 0. No memory.
    pub fn value_names(&self, n: NetId) -> &[Name]
        requires { IsTrue (is_held self.now.nets n.0) }
        ensures { result.now ≡ value_names_in (slot self.now.nets n.0) }
    {
        self.held(n).value_names.as_slice()
    }

    /// The table of a held net: None exactly for inputs and latches. No memory.
    pub fn table(&self, n: NetId) -> Option<&Cover>
        requires { IsTrue (is_held self.now.nets n.0) }
        ensures { option_copied result ≡ table_in (slot self.now.nets n.0) }
    {
        self.held(n).table.as_ref()
    }

    /// The nets that the table of a held net has literals on, ascending. No memory.
    pub fn fanins(&self, n: NetId) -> &[NetId]
        requires { IsTrue (is_held self.now.nets n.0) }
        ensures { IsAscending (λ m. net_reads (slot self.now.nets n.0) m) result.now }
    {
        self.kept.graph.fanins(n)
    }

    /// The nets whose tables have literals on a held net, ascending. No memory.
    pub fn readers(&self, n: NetId) -> &[NetId]
        requires { IsTrue (is_held self.now.nets n.0) }
        ensures { IsAscending (λ m. net_reads (slot self.now.nets m) n.0) result.now }
    {
        self.kept.graph.readers(n)
    }

    /// Whether a held net is an output of the root, the input of a latch, or a reset net. No memory.
    pub fn is_seen(&self, n: NetId) -> bool
        requires { IsTrue (is_held self.now.nets n.0) }
        ensures { result ≡ is_seen self.now n.0 }
    {
        match self.kept.seen.as_slice().get(n.0 as usize) {
            Some(mark) => *mark,
            None => false,
        }
    }

    /// Whether the one net is above the other: a path of at least one step, each to a net that the one before reads, leads to
    /// it from the other. No net is above or below a number that isn't held. It looks only at nets that stand between the two
    /// in the kept order.
    pub fn is_above(&self, above: NetId, n: NetId) -> Result<bool, Memory>
        ensures { IfOk result
            (λ yes. MatchBool yes (IsAbove (reads_in self.now.nets) above.0 n.0)
            (IsAbove (reads_in self.now.nets) above.0 n.0 → ⊥)) }
    {
        self.kept.graph.is_above(above, n)
    }

    /// The held nets, each behind its fanins: a topological order. They are sorted by their places in the kept order.
    pub fn order(&self) -> Result<Vec<NetId>, Memory>
        ensures { IfOk result (λ order. IsOrder self.now.nets order.items) }
    {
        let nets = self.held_nets()?;
        self.kept.graph.order_among(nets.as_slice())
    }

    /// The numbers of the held nets, ascending.
    fn held_nets(&self) -> Result<Items<NetId>, Memory>
        ensures { IfOk result (λ nets. IsAscending (is_held self.now.nets) nets) }
    {
        let mut nets = Items::new(self.parts.nets.allocator());
        for number in 0..self.next_number() {
            if self.holds(NetId(number)) {
                nets.push(NetId(number))?;
            }
        }
        Ok(nets)
    }
}
