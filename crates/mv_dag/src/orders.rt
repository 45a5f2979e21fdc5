//! Orders of nets by their labels, and labels from an order.
ghost use Rattle.std.specs.Prelude.{◌≡◌, ◌≤◌, true, length, IfOk};
ghost use Rattle.mv_base.specs.declared.limits.TheConstants.{MAX_NETS};
ghost use Rattle.mv_graph.specs.Nets.{all_differ};
ghost use Rattle.mv_graph.specs.Orders.{IsSortedBy};
ghost use Rattle.mv_dag.specs.Ordered.{IsOrdered, IsOrderOf};

use crate::label::Label;
use crate::window::label_of;
use mv_base::{Items, MAX_NETS, Memory, NetId};
use std::alloc::Global;

/// These nets in the order of their labels.
pub fn order_of(
    alloc: Global,
    labels: &[Label],
    fanins: &[Items<NetId>],
    nets: &[NetId],
) -> Result<Vec<NetId>, Memory>
    requires ordered { IsOrdered fanins.now labels.now }
    requires once { all_differ nets.now ≡ true }
    ensures { IfOk result (λ order. IsOrderOf fanins.now nets.now order.items) }
{
    let mut order = Vec::from_slice(alloc, nets)?;
    order.sort_unstable_by_key(|net| label_of(labels, *net));
    Ok(order)
}

/// Labels by an order of all nets: the net at a place of it gets the place as its bucket, and its own number as its id.
pub fn first_labels(
    alloc: Global,
    fanins: &[Items<NetId>],
    order: &[NetId],
) -> Result<Vec<Label>, Memory>
    requires few { length fanins.now ≤ MAX_NETS }
    requires sorted { IsSortedBy fanins.now order.now }
    ensures { IfOk result (λ labels. IsOrdered fanins.now labels.items) }
{
    let mut labels = vec![in alloc; Label::new(0, 0); fanins.len()]?;
    for (place, net) in order.iter().enumerate() {
        labels[net.0 as usize] = Label::new(place as u32, net.0);
    }
    Ok(labels)
}
