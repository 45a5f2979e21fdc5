ghost use Rattle.std.specs.Prelude.{◌≡◌, length, IsTrue, IfOk, OnOk, MatchBool, List, Option};
ghost use Rattle.mv_graph.specs.Marks.{is_marked};
ghost use Rattle.mv_meaning.specs.Narrowing.{AreTotalBelow};
ghost use Rattle.mv_net.specs.declared.parts.FlatNet.{FlatNet};
ghost use Rattle.mv_net.specs.Index.{is_held};
ghost use Rattle.mv_net.specs.Order.{IsOrder};
ghost use Rattle.mv_partial.specs.Partial.{ArePartial, HasMarkedReaders, IsPartialMark, IsTotalDown};

use mv_base::{Items, Memory, NetId};
use mv_net::Network;
use std::alloc::Global;
use std::marker::Model;

/// For each net of one network, by number, whether its table or one below it isn't total. They are right for that network alone.
#[derive(Drop)]
pub struct PartialNets {
    marks: Items<bool>,
}

impl Model for PartialNets {
    ghost use Rattle.std.specs.Prelude.{List, Bool};

    ghost Value = { List Bool };

    ghost view = { λ p. p.marks };
}

impl PartialNets {
    /// Whether a table below the net isn't total: that of a reader, or one below a reader. It looks at the readers alone.
    #[tactic(auto, using(crate::proofs::Marking::readers_of))]
    pub fn is_below(&self, net: &Network, n: NetId) -> bool
        requires held { IsTrue (is_held net.now.nets n.0) }
        requires right { ArePartial net.now.nets self.now }
        ensures { MatchBool result (AreTotalBelow net.now.nets n.0 → ⊥)
            (AreTotalBelow net.now.nets n.0) }
    {
        is_partial_below(net, self.marks.as_slice(), n)
    }

    /// Whether the net's own table or one below it isn't total.
    #[tactic(auto, using(crate::proofs::Marking::told))]
    pub fn has(&self, n: NetId) -> bool
        ensures marked { result ≡ is_marked self.now n.0 }
        ensures told { (nets : List (Option FlatNet)) → ArePartial nets self.now
            → IsTrue (is_held nets n.0)
            → MatchBool result (IsTotalDown nets n.0 → ⊥) (IsTotalDown nets n.0) }
    {
        has_mark(self.marks.as_slice(), n)
    }
}

/// Whether the net is marked.
fn has_mark(marks: &[bool], n: NetId) -> bool
    ensures { result ≡ is_marked marks.now n.0 }
{
    match marks.get(n.0 as usize) {
        Some(mark) => *mark,
        None => false,
    }
}

/// Whether a table below the net isn't total, by the marks of its readers.
fn is_partial_below(net: &Network, marks: &[bool], n: NetId) -> bool
    requires held { IsTrue (is_held net.now.nets n.0) }
    requires marked { HasMarkedReaders net.now.nets n.0 marks.now }
    ensures { MatchBool result (AreTotalBelow net.now.nets n.0 → ⊥)
        (AreTotalBelow net.now.nets n.0) }
{
    for reader in net.readers(n) {
        if has_mark(marks, *reader) {
            return true;
        }
    }
    false
}

/// Whether the net's table or one below it isn't total.
fn is_partial(alloc: Global, net: &Network, marks: &[bool], n: NetId) -> Result<bool, Memory>
    requires held { IsTrue (is_held net.now.nets n.0) }
    requires marked { HasMarkedReaders net.now.nets n.0 marks.now }
    ensures { IfOk result (IsPartialMark net.now.nets n.0) }
{
    if is_partial_below(net, marks, n) {
        return Ok(true);
    }
    match net.is_total(alloc, n) {
        Ok(total) => Ok(!total),
        Err(memory) => Err(memory),
    }
}

/// Marks each net behind its readers.
fn mark_each(
    alloc: Global,
    net: &Network,
    order: &[NetId],
    marks: &mut Items<bool>,
) -> Result<(), Memory>
    requires order { IsOrder net.now.nets order.now }
    requires long { length marks.old ≡ length net.now.nets }
    ensures { OnOk result (ArePartial net.now.nets marks.new) }
{
    net.well_formed();
    for done in 0..order.len() {
        let n = order[order.len() - 1 - done];
        match is_partial(alloc, net, marks.as_slice(), n) {
            Ok(partial) => {
                marks.replace(n.0 as usize, partial);
            }
            Err(memory) => return Err(memory),
        }
    }
    Ok(())
}

/// The nets of the network from which on some table isn't total. It asks each table once.
pub fn partial_nets(alloc: Global, net: &Network) -> Result<PartialNets, Memory>
    ensures { IfOk result (ArePartial net.now.nets) }
{
    let order = net.order()?;
    let mut marks = Items::of(vec![in alloc; false; net.next_number() as usize]?);
    match mark_each(alloc, net, order.as_slice(), &mut marks) {
        Ok(()) => Ok(PartialNets { marks }),
        Err(memory) => Err(memory),
    }
}
