//! The nets with a table above them that isn't plainly deterministic.
ghost use Rattle.std.specs.Prelude.{◌≡◌, ℕ, true, length, IsTrue, IfOk, MatchBool};
ghost use Rattle.mv_graph.specs.Marks.{is_marked};
ghost use Rattle.mv_net.specs.Index.{is_held};
ghost use Rattle.mv_net.specs.Nets.{slot, net_reads};
ghost use Rattle.mv_net.specs.Order.{IsOrder};
ghost use Rattle.mv_fill.specs.Filling.{HasMarks, IsPlainTable, IsPlainTo, IsVariedMark};

use mv_base::{Items, Memory, NetId};
use mv_net::Network;
use std::alloc::Global;

/// Whether the net is marked.
pub fn has_mark(marks: &[bool], n: NetId) -> bool
    ensures { result ≡ is_marked marks.now n.0 }
{
    match marks.get(n.0 as usize) {
        Some(mark) => *mark,
        None => false,
    }
}

/// Whether the net has no table, or one that is plainly deterministic.
fn is_plain(net: &Network, n: NetId) -> bool
    requires { IsTrue (is_held net.now.nets n.0) }
    ensures { MatchBool result (IsPlainTable net.now.nets n.0) (IsPlainTable net.now.nets n.0 → ⊥) }
{
    let Some(_table) = net.table(n) else {
        return true;
    };
    net.is_plainly_deterministic(n)
}

/// Whether the net's table and those above it are plainly deterministic.
fn is_plain_to(net: &Network, marks: &[bool], n: NetId) -> bool
    requires held { IsTrue (is_held net.now.nets n.0) }
    requires marked { IsVariedMark net.now.nets n.0 (is_marked marks.now n.0) }
    ensures { MatchBool result (IsPlainTo net.now.nets n.0) (IsPlainTo net.now.nets n.0 → ⊥) }
{
    if has_mark(marks, n) {
        return false;
    }
    is_plain(net, n)
}

/// Whether a table above the net isn't plainly deterministic: that of a fanin, or one above a fanin, which is marked.
fn is_varied(net: &Network, marks: &[bool], n: NetId) -> bool
    requires held { IsTrue (is_held net.now.nets n.0) }
    requires marked { (m : ℕ) → net_reads (slot net.now.nets n.0) m ≡ true
        → IsVariedMark net.now.nets m (is_marked marks.now m) }
    ensures { IsVariedMark net.now.nets n.0 result }
{
    net.well_formed();
    for fanin in net.fanins(n) {
        if !is_plain_to(net, marks, *fanin) {
            return true;
        }
    }
    false
}

/// Marks each net behind its fanins.
fn mark_each(net: &Network, order: &[NetId], marks: &mut Items<bool>)
    requires order { IsOrder net.now.nets order.now }
    requires long { length marks.old ≡ length net.now.nets }
    ensures { HasMarks net.now.nets marks.new }
{
    for n in order {
        let varied = is_varied(net, marks.as_slice(), *n);
        marks.replace(n.0 as usize, varied);
    }
}

/// For each held net, by number, whether a table above it isn't plainly deterministic.
pub fn varied_above(alloc: Global, net: &Network) -> Result<Items<bool>, Memory>
    ensures { IfOk result (HasMarks net.now.nets) }
{
    let order = net.order()?;
    let mut marks = Items::of(vec![in alloc; false; net.next_number() as usize]?);
    mark_each(net, order.as_slice(), &mut marks);
    Ok(marks)
}
