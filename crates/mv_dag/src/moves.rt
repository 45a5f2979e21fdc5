//! How a net comes to stand behind others (Pearce and Kelly 2006).
ghost use Rattle.std.specs.Prelude.{◌≡◌, ℕ, ◌<◌, ◌≤◌, true, List, [], ◌++◌, length, map, filter, slice_set, All, IfOk, OnOk, OnErr};
ghost use Rattle.mv_base.specs.declared.number.NetId.{NetId};
ghost use Rattle.mv_graph.specs.Nets.{has_id, AllBelow};
ghost use Rattle.mv_dag.specs.Ordered.{IsOrdered};
ghost use Rattle.mv_dag.specs.Searches.{leads_to, HasReaders, Leads};
ghost use Rattle.mv_dag.specs.Moves.{WasAt, AreEntries, entry_of, is_among as among, is_other, turned_by, written};
ghost use Rattle.mv_dag.specs.declared.moves.Entry.{Entry};

use crate::label::Label;
use crate::labels::greatest;
use crate::reach::reach;
use crate::way::Way;
use indexmap::IndexSet;
use mv_base::{Items, Memory, NetId};
use std::alloc::Global;

/// A net and a label of it.
#[derive(Clone, Copy, Debug, PartialEq, Eq, PartialOrd, Ord)]
pub struct Entry {
    /// The label.
    pub label: Label,
    /// The net.
    pub net: NetId,
}

/// Moves labels so that `net` may read `new` in place of what it reads, where none of those is the net or leads to it. The
/// labels are good for the old fanins too. Looks only at nets between the net and the last of the new fanins, and answers the
/// labels that became others, for `put_back`. On an error the labels are as before.
pub fn put_behind(
    alloc: Global,
    labels: &mut [Label],
    fanins: &[Items<NetId>],
    readers: &[Items<NetId>],
    net: NetId,
    new: &[NetId],
) -> Result<Vec<Entry>, Memory>
    requires ordered { IsOrdered fanins.now labels.old }
    requires below { AllBelow fanins.now }
    requires readers { HasReaders fanins.now readers.now }
    requires net { net.0 < length fanins.now }
    requires new { All (λ (n : NetId). n.0 < length fanins.now) new.now }
    requires free { (m : ℕ) → has_id new.now m ≡ true → Leads (leads_to Way.Up fanins.now) m net.0
        → ⊥ }
    ensures ok { OnOk result (IsOrdered (slice_set fanins.now net.0 new.now) labels.new) }
    ensures still { IsOrdered fanins.now labels.new }
    ensures was { IfOk result (λ moves. WasAt labels.old labels.new moves.items) }
    ensures err { OnErr result (labels.new ≡ labels.old) }
{
    let low = labels[net.0 as usize];
    let high = greatest(labels, new);
    if high < low {
        return Ok(Vec::new(alloc));
    }
    let above = reach(alloc, Way::Up, fanins, readers, labels, new, low, high)?;
    let below = reach(alloc, Way::Down, fanins, readers, labels, &[net], low, high)?;
    let moves = share(alloc, labels, &above, &below)?;
    Ok(moves)
}

/// Shares the labels of these nets anew: those above get the lower ones, each part in its order. Answers the labels that they
/// had, in their order. On an error the labels are as before.
fn share(
    alloc: Global,
    labels: &mut [Label],
    above: &IndexSet<NetId>,
    below: &IndexSet<NetId>,
) -> Result<Vec<Entry>, Memory>
    requires above { All (λ (n : NetId). n.0 < length labels.old) above.now.keys }
    requires below { All (λ (n : NetId). n.0 < length labels.old) below.now.keys }
    ensures entries { IfOk result
        (λ moves. AreEntries labels.old above.now.keys below.now.keys moves.items) }
    ensures labels { IfOk result
        (λ moves. labels.new
        ≡ written labels.old (turned_by above.now.keys moves.items) moves.items) }
    ensures err { OnErr result (labels.new ≡ labels.old) }
{
    let moves = entries_of(alloc, labels, above.as_slice(), below.as_slice())?;
    let turned = turn(alloc, moves.as_slice(), above)?;
    write(labels, turned.as_slice(), moves.as_slice());
    Ok(moves)
}

/// Puts the labels back as they were before the moves. It takes no memory.
pub fn put_back(labels: &mut [Label], moves: &[Entry])
    requires { All (λ (e : Entry). e.net.0 < length labels.old) moves.now }
    ensures { (before : List ℕ) → WasAt before labels.old moves.now → labels.new ≡ before }
{
    write(labels, moves, moves);
}

/// The nets of both lists with their labels, in the order of the labels, each once.
fn entries_of(
    alloc: Global,
    labels: &[Label],
    above: &[NetId],
    below: &[NetId],
) -> Result<Vec<Entry>, Memory>
    requires above { All (λ (n : NetId). n.0 < length labels.now) above.now }
    requires below { All (λ (n : NetId). n.0 < length labels.now) below.now }
    ensures { IfOk result (λ entries. AreEntries labels.now above.now below.now entries.items) }
{
    let mut entries = Vec::new(alloc);
    add_entries(&mut entries, labels, above)?;
    add_entries(&mut entries, labels, below)?;
    entries.sort_unstable();
    entries.dedup();
    Ok(entries)
}

/// Puts the nets with their labels at the end of the list.
fn add_entries(entries: &mut Vec<Entry>, labels: &[Label], nets: &[NetId]) -> Result<(), Memory>
    requires { All (λ (n : NetId). n.0 < length labels.now) nets.now }
    ensures { OnOk result
        (entries.new.items ≡ entries.old.items ++ map (entry_of labels.now) nets.now) }
{
    for net in nets {
        let label = labels[net.0 as usize];
        entries.push(Entry { label, net: *net })?;
    }
    Ok(())
}

/// The entries of the nets above, and then the others, each in their order.
fn turn(alloc: Global, entries: &[Entry], above: &IndexSet<NetId>) -> Result<Vec<Entry>, Memory>
    ensures { IfOk result (λ turned. turned.items ≡ turned_by above.now.keys entries.now) }
{
    let mut turned = Vec::with_capacity(alloc, entries.len())?;
    for entry in entries {
        if is_among(above, *entry) {
            turned.push(*entry)?;
        }
    }
    add_others(&mut turned, entries, above)?;
    Ok(turned)
}

/// Puts the entries of other nets than those above at the end of the list.
fn add_others(
    turned: &mut Vec<Entry>,
    entries: &[Entry],
    above: &IndexSet<NetId>,
) -> Result<(), Memory>
    ensures { OnOk result
        (turned.new.items ≡ turned.old.items ++ filter (is_other above.now.keys) entries.now) }
{
    for entry in entries {
        if !is_among(above, *entry) {
            turned.push(*entry)?;
        }
    }
    Ok(())
}

/// Whether the entry is of one of these nets.
fn is_among(nets: &IndexSet<NetId>, entry: Entry) -> bool
    ensures { result ≡ among nets.now.keys entry }
{
    nets.contains(&entry.net)
}

/// Gives the labels of the places to the nets of the entries, pair by pair.
fn write(labels: &mut [Label], entries: &[Entry], places: &[Entry])
    requires long { length entries.now ≤ length places.now }
    requires nets { All (λ (e : Entry). e.net.0 < length labels.old) entries.now }
    ensures { labels.new ≡ written labels.old entries.now places.now }
{
    for index in 0..entries.len() {
        labels[entries[index].net.0 as usize] = places[index].label;
    }
}
