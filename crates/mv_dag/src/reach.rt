//! Searches along a graph.
ghost use Rattle.std.specs.Prelude.{◌≡◌, ◌<◌, ◌&&◌, true, [], length, All, IfOk, OnOk};
ghost use Rattle.mv_base.specs.declared.number.NetId.{NetId};
ghost use Rattle.mv_graph.specs.Nets.{has_id, all_differ, AllBelow};
ghost use Rattle.mv_dag.specs.Searches.{leads_to, HasReaders, IsReach};
ghost use Rattle.mv_dag.specs.Finding.{is_in, HasGained, IsSearch};

use crate::label::Label;
use crate::way::{Way, is_step, next_nets};
use crate::window::is_in;
use indexmap::IndexSet;
use mv_base::{Items, Memory, NetId};
use std::alloc::Global;

/// The nets to which the way leads from the starts, in any number of steps, over nets with labels from `low` to `high`. The time
/// grows with the number of those nets and of the steps from them. The only error is want of memory.
pub fn reach(
    alloc: Global,
    way: Way,
    fanins: &[Items<NetId>],
    readers: &[Items<NetId>],
    labels: &[Label],
    starts: &[NetId],
    low: Label,
    high: Label,
) -> Result<IndexSet<NetId>, Memory>
    requires below { AllBelow fanins.now }
    requires readers { HasReaders fanins.now readers.now }
    requires long { length labels.now ≡ length fanins.now }
    requires starts { All (λ (n : NetId). n.0 < length fanins.now) starts.now }
    ensures { IfOk result
        (λ found. IsReach (leads_to way fanins.now) labels.now starts.now low high found.keys) }
{
    let found = search(alloc, way, fanins, readers, labels, starts, low, high)?;
    Ok(found)
}

/// The nets that `reach` finds, for any labels. Where there are none, all nets have the least one.
pub fn search(
    alloc: Global,
    way: Way,
    fanins: &[Items<NetId>],
    readers: &[Items<NetId>],
    labels: &[Label],
    starts: &[NetId],
    low: Label,
    high: Label,
) -> Result<IndexSet<NetId>, Memory>
    requires below { AllBelow fanins.now }
    requires readers { HasReaders fanins.now readers.now }
    requires starts { All (λ (n : NetId). n.0 < length fanins.now) starts.now }
    ensures searched { IfOk result
        (λ found. IsSearch (leads_to way fanins.now)
        (length fanins.now) labels.now starts.now low high found.keys (length found.keys)) }
    ensures distinct { IfOk result (λ found. all_differ found.keys ≡ true) }
{
    let mut found = started(alloc, labels, starts, low, high)?;
    let mut place = 0;
    while place < found.len() {
        let net = found.as_slice()[place];
        let nets = next_nets(way, fanins, readers, net);
        follow(&mut found, way, fanins, nets, labels, net, low, high)?;
        place += 1;
    }
    Ok(found)
}

/// Those of the nets with labels from `low` to `high`.
fn started(
    alloc: Global,
    labels: &[Label],
    nets: &[NetId],
    low: Label,
    high: Label,
) -> Result<IndexSet<NetId>, Memory>
    ensures { IfOk result
        (λ found. HasGained [] found.keys (λ n. has_id nets.now n && is_in labels.now low high n)) }
{
    let mut found = IndexSet::new(alloc);
    for net in nets {
        if is_in(labels, *net, low, high) {
            found.insert(*net)?;
        }
    }
    Ok(found)
}

/// Puts those of the nets to the ones found to which the way leads from the net, with labels from `low` to `high`.
fn follow(
    found: &mut IndexSet<NetId>,
    way: Way,
    fanins: &[Items<NetId>],
    nets: &[NetId],
    labels: &[Label],
    net: NetId,
    low: Label,
    high: Label,
) -> Result<(), Memory>
    ensures { OnOk result
        (HasGained found.old.keys found.new.keys
        (λ n. has_id nets.now n
        && (is_in labels.now low high n && leads_to way fanins.now net.0 n))) }
{
    for next in nets {
        if is_in(labels, *next, low, high) && is_step(way, fanins, net, *next) {
            found.insert(*next)?;
        }
    }
    Ok(())
}
