//! Labels for nets that come.
ghost use Rattle.std.specs.Prelude.{◌≡◌, ℕ, ◌+◌, ◌<◌, ◌≤◌, ◌^◌, true, [], ◌∷◌, ◌++◌, length, All, OnOk, OnErr};
ghost use Rattle.mv_base.specs.declared.number.NetId.{NetId};
ghost use Rattle.mv_graph.specs.Nets.{has_id, AllBelow};
ghost use Rattle.mv_dag.specs.Ordered.{at, IsOrdered};

use crate::label::Label;
use mv_base::{Items, Memory, NetId};

/// Gives the next number a label. It has no fanins yet, and stands right behind the last of the nets in `near`: no label comes
/// between but those of its bucket, and no other label changes. On an error the labels are as before.
pub fn add_label(
    labels: &mut Vec<Label>,
    fanins: &[Items<NetId>],
    near: &[NetId],
) -> Result<(), Memory>
    requires ordered { IsOrdered fanins.now labels.old.items }
    requires below { AllBelow fanins.now }
    requires near { All (λ (n : NetId). n.0 < length fanins.now) near.now }
    requires room { length fanins.now < 2 ^ 32 }
    ensures ok { OnOk result (IsOrdered (fanins.now ++ [] ∷ []) labels.new.items) }
    ensures behind { OnOk result
        ((m : ℕ) → has_id near.now m ≡ true
        → at labels.new.items m < at labels.new.items (length fanins.now)) }
    ensures kept { OnOk result
        ((m : ℕ) → m < length fanins.now → at labels.new.items m ≡ at labels.old.items m) }
    ensures err { OnErr result (labels.new.items ≡ labels.old.items) }
{
    let last = greatest(labels.as_slice(), near);
    labels.push(last.behind(fanins.len() as u32))?;
    Ok(())
}

/// The greatest label of these nets, or the least of all labels where there are no nets.
pub fn greatest(labels: &[Label], nets: &[NetId]) -> Label
    requires { All (λ (n : NetId). n.0 < length labels.now) nets.now }
    ensures { (n : ℕ) → has_id nets.now n ≡ true → at labels.now n ≤ result }
{
    let mut greatest = Label::new(0, 0);
    for net in nets {
        let label = labels[net.0 as usize];
        if label > greatest {
            greatest = label;
        }
    }
    greatest
}
