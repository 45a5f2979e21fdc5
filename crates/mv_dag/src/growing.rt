//! Nets that come to a graph, without fanins at first.
ghost use Rattle.std.specs.Prelude.{◌≡◌, ◌+◌, ◌<◌, ◌≤◌, ◌∷◌, ◌++◌, [], length, take, All, IfOk, OnOk};
ghost use Rattle.mv_base.specs.declared.number.NetId.{NetId};
ghost use Rattle.mv_base.specs.declared.limits.TheConstants.{MAX_NETS};
ghost use Rattle.mv_graph.specs.Nets.{AllBelow};
ghost use Rattle.mv_dag.specs.Ordered.{IsOrdered};
ghost use Rattle.mv_dag.specs.Growing.{AreAdded};

use crate::label::Label;
use crate::labels::add_label;
use crate::new_rows::NewRow;
use mv_base::{Items, MAX_NETS, Memory, NetId};
use std::alloc::Global;

/// Adds so many nets without fanins. Each stands in the order near those below it that its row is to have. On an error some may
/// have come.
pub fn add_nets(
    fanins: &mut Items<Items<NetId>>,
    readers: &mut Items<Items<NetId>>,
    labels: &mut Vec<Label>,
    added: usize,
    rows: &[NewRow],
) -> Result<(), Memory>
    requires below { AllBelow fanins.old }
    requires ordered { IsOrdered fanins.old labels.old.items }
    requires few { length fanins.old + added ≤ MAX_NETS }
    ensures front_fanins { take (length fanins.old) fanins.new ≡ fanins.old }
    ensures front_readers { take (length readers.old) readers.new ≡ readers.old }
    ensures front_labels { take (length labels.old.items) labels.new.items ≡ labels.old.items }
    ensures added { OnOk result
        (AreAdded added fanins.old fanins.new readers.old readers.new labels.old.items labels.new.items) }
{
    let alloc = fanins.allocator();
    let first = fanins.len();
    let places = places_of(alloc, rows, first, added)?;
    for index in 0..added {
        let row = row_at(rows, places.as_slice(), index);
        let near = nets_below(alloc, row, first + index)?;
        add_net(fanins, readers, labels, near.as_slice())?;
    }
    Ok(())
}

/// Adds a net without fanins, which stands in the order behind those that are near. On an error it may have come to some lists.
fn add_net(
    fanins: &mut Items<Items<NetId>>,
    readers: &mut Items<Items<NetId>>,
    labels: &mut Vec<Label>,
    near: &[NetId],
) -> Result<(), Memory>
    requires below { AllBelow fanins.old }
    requires ordered { IsOrdered fanins.old labels.old.items }
    requires near { All (λ (n : NetId). n.0 < length fanins.old) near.now }
    requires few { length fanins.old < MAX_NETS }
    ensures front_fanins { take (length fanins.old) fanins.new ≡ fanins.old }
    ensures front_readers { take (length readers.old) readers.new ≡ readers.old }
    ensures front_labels { take (length labels.old.items) labels.new.items ≡ labels.old.items }
    ensures fanins { OnOk result (fanins.new ≡ fanins.old ++ [] ∷ []) }
    ensures readers { OnOk result (readers.new ≡ readers.old ++ [] ∷ []) }
    ensures ordered { OnOk result (IsOrdered fanins.new labels.new.items) }
{
    let alloc = fanins.allocator();
    add_label(labels, fanins.as_slice(), near)?;
    readers.push(Items::new(alloc))?;
    fanins.push(Items::new(alloc))?;
    Ok(())
}

/// For each number from the first on the place of its row in the list, if it has one.
fn places_of(
    alloc: Global,
    rows: &[NewRow],
    first: usize,
    added: usize,
) -> Result<Vec<usize>, Memory> {
    let mut places = vec![in alloc; rows.len(); added]?;
    for (place, row) in rows.iter().enumerate() {
        let number = row.net.0 as usize;
        if number >= first {
            if let Some(at) = places.get_mut(number - first) {
                *at = place;
            }
        }
    }
    Ok(places)
}

/// The fanins in the row that a number has, if it has one.
fn row_at<'a>(rows: &'a [NewRow], places: &[usize], index: usize) -> &'a [NetId] {
    match places.get(index) {
        Some(place) => match rows.get(*place) {
            Some(row) => row.fanins.as_slice(),
            None => &[],
        },
        None => &[],
    }
}

/// The nets below the number.
fn nets_below(alloc: Global, nets: &[NetId], number: usize) -> Result<Vec<NetId>, Memory>
    ensures { IfOk result (λ below. All (λ (n : NetId). n.0 < number) below.items) }
{
    let mut below = Vec::new(alloc);
    for net in nets {
        if (net.0 as usize) < number {
            below.push(*net)?;
        }
    }
    Ok(below)
}
