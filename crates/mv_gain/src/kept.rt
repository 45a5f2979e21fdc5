ghost use Rattle.std.specs.Prelude.{◌≡◌, ◌≤◌, ℕ, true, Option, Some, None, List, length, IsTrue, IfOk, OnOk};
ghost use Rattle.mv_base.specs.declared.number.NetId.{NetId};
ghost use Rattle.mv_net.specs.declared.parts.FlatNet.{FlatNet};
ghost use Rattle.mv_net.specs.Index.{is_held};
ghost use Rattle.mv_gain.specs.Kept.{IsPair, AreRight, RightBehind};
ghost use Rattle.mv_gain.specs.Pairs.{kept_at, AreSummed, IsPart, LacksNet, LacksReader, Forgets, Stays, KeepsMore, HasComing};

use crate::row::{Pair, Row};
use mv_base::{Memory, NetId};
use mv_net::Network;
use std::alloc::Global;
use std::collections::BTreeSet;

/// The literals of composites that were worked out and haven't changed since: by net, and then by reader.
#[derive(Drop)]
pub struct KeptComposites {
    pub(crate) nets: Vec<Row>,
}

impl KeptComposites {
    /// Nothing is kept of the nets below the end.
    pub fn none(alloc: Global, end: u32) -> Result<KeptComposites, Memory>
        ensures { (nets : List (Option FlatNet)) → length nets ≤ end
            → IfOk result (λ kept. AreRight nets kept) }
    {
        let mut nets = Vec::new(alloc);
        for _number in 0..end {
            nets.push(Row::none(alloc))?;
        }
        Ok(KeptComposites { nets })
    }

    /// What is kept of the net and the reader, if anything is.
    pub(crate) fn find(&self, n: NetId, reader: NetId) -> Option<Pair>
        ensures { result ≡ kept_at self.now n.0 reader.0 }
    {
        match self.nets.get(n.0 as usize) {
            Some(row) => row.pairs.get(&reader.0).copied(),
            None => None,
        }
    }

    /// Keeps the pair of the net and a reader of which nothing is kept.
    pub(crate) fn put(
        &mut self,
        net: &Network,
        n: NetId,
        reader: NetId,
        pair: Pair,
    ) -> Result<(), Memory>
        requires right { AreRight net.now.nets self.old }
        requires absent { kept_at self.old n.0 reader.0 ≡ None }
        requires pair { IsPair net.now.nets n.0 reader.0 pair }
        ensures right { OnOk result (AreRight net.now.nets self.new) }
        ensures more { OnOk result (KeepsMore self.old self.new) }
        ensures here { OnOk result (HasComing self.new n.0 reader.0 pair.coming) }
    {
        net.few();
        match self.nets.get_mut(n.0 as usize) {
            Some(row) => row.put(reader.0, pair)?,
            None => {}
        }
        Ok(())
    }

    /// Keeps nothing of the net and the reader, which is marked.
    fn forget(&mut self, n: NetId, reader: NetId) -> Result<(), Memory>
        requires summed { AreSummed self.old }
        ensures part { OnOk result (IsPart self.old self.new) }
        ensures gone { OnOk result (kept_at self.new n.0 reader.0 ≡ None) }
    {
        match self.nets.get_mut(n.0 as usize) {
            Some(row) => row.forget(reader.0)?,
            None => {}
        }
        Ok(())
    }

    /// Keeps nothing of the net and all its readers.
    fn forget_readers(&mut self, n: NetId)
        ensures part { IsPart self.old self.new }
        ensures gone { LacksNet self.new n.0 }
    {
        let alloc = *self.nets.allocator();
        match self.nets.get_mut(n.0 as usize) {
            Some(row) => {
                *row = Row::none(alloc);
            }
            None => {}
        }
    }

    /// Keeps nothing of the reader and these nets.
    fn forget_fanins(&mut self, nets: &[NetId], reader: NetId) -> Result<(), Memory>
        requires summed { AreSummed self.old }
        ensures part { OnOk result (IsPart self.old self.new) }
        ensures gone { OnOk result (LacksReader self.new nets.now reader.0) }
    {
        for n in nets {
            self.forget(*n, reader)?;
        }
        Ok(())
    }

    /// Keeps nothing of the net, with its readers and as a reader.
    fn forget_net(&mut self, net: &Network, n: NetId) -> Result<(), Memory>
        requires held { IsTrue (is_held net.now.nets n.0) }
        requires summed { AreSummed self.old }
        ensures { OnOk result (Forgets net.now.nets n.0 self.old self.new) }
    {
        self.forget_readers(n);
        self.forget_fanins(net.fanins(n), n)?;
        Ok(())
    }

    /// Marks the reader for each of the nets.
    fn mark(&mut self, nets: &[NetId], reader: NetId) -> Result<(), Memory>
        ensures { OnOk result (IsPart self.old self.new) }
    {
        for n in nets {
            match self.nets.get_mut(n.0 as usize) {
                Some(row) => row.mark(reader.0)?,
                None => {}
            }
        }
        Ok(())
    }

    /// Forgets the composites that change where the net goes, or goes into its readers: those of the net and of its readers, with
    /// each of their readers, and with each net that they read. Its readers are marked for the nets that it reads, which they will
    /// read.
    pub fn forget_near(&mut self, net: &Network, n: NetId) -> Result<(), Memory>
        requires held { IsTrue (is_held net.now.nets n.0) }
        requires right { AreRight net.now.nets self.old }
        ensures { OnOk result (RightBehind net.now n.0 self.new) }
    {
        self.forget_net(net, n)?;
        for reader in net.readers(n) {
            self.forget_net(net, *reader)?;
            self.mark(net.fanins(n), *reader)?;
        }
        Ok(())
    }

    /// Takes the readers that are marked for the net.
    pub(crate) fn take_marked(&mut self, alloc: Global, n: NetId) -> BTreeSet<u32>
        ensures { Stays self.old self.new }
    {
        match self.nets.get_mut(n.0 as usize) {
            Some(row) => row.take_marked(alloc),
            None => BTreeSet::new(alloc),
        }
    }

    /// Marks these readers for the net, and no others.
    pub(crate) fn set_marked(&mut self, n: NetId, marked: BTreeSet<u32>)
        ensures { Stays self.old self.new }
    {
        match self.nets.get_mut(n.0 as usize) {
            Some(row) => row.set_marked(marked),
            None => {}
        }
    }

    /// The readers of the net below this have been looked at, if it has a row.
    pub(crate) fn next(&self, n: NetId) -> u32 {
        match self.nets.get(n.0 as usize) {
            Some(row) => row.next,
            None => 0,
        }
    }

    /// The readers of the net below the end have been looked at.
    pub(crate) fn set_next(&mut self, n: NetId, end: u32)
        ensures { Stays self.old self.new }
    {
        match self.nets.get_mut(n.0 as usize) {
            Some(row) => row.set_next(end),
            None => {}
        }
    }
}
