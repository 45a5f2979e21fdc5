//! The labels of nets, and whether one lies between two others.
ghost use Rattle.std.specs.Prelude.{◌≡◌};
ghost use Rattle.mv_dag.specs.Ordered.{at};
ghost use Rattle.mv_dag.specs.Finding.{is_in};

use crate::label::Label;
use mv_base::NetId;

/// The label of the net, and the least one past the last net.
pub fn label_of(labels: &[Label], net: NetId) -> Label
    ensures { result ≡ at labels.now net.0 }
{
    match labels.get(net.0 as usize) {
        Some(label) => *label,
        None => Label::new(0, 0),
    }
}

/// Whether the label of the net is one from `low` to `high`.
pub fn is_in(labels: &[Label], net: NetId, low: Label, high: Label) -> bool
    ensures { result ≡ is_in labels.now low high net.0 }
{
    let label = label_of(labels, net);
    low <= label && label <= high
}
