//! Which nets are above others.
ghost use Rattle.std.specs.Prelude.{◌≡◌, ◌↔◌, ◌<◌, ℕ, true, length, IfOk, IsTrue, MatchBool};
ghost use Rattle.mv_base.specs.declared.number.NetId.{NetId};
ghost use Rattle.mv_graph.specs.Nets.{has_id, ids_ascend, row, AllBelow};
ghost use Rattle.mv_graph.specs.Above.{IsAbove, reads_by};
ghost use Rattle.mv_dag.specs.Ordered.{IsOrdered};
ghost use Rattle.mv_dag.specs.Searches.{HasReaders};

use crate::label::Label;
use crate::reach::{reach, search};
use crate::rows::row_of;
use crate::way::{Way, reads};
use crate::window::label_of;
use mv_base::{Items, Memory, NetId};
use std::alloc::Global;

/// Whether the one net is above the other, for any two numbers. Only nets are looked at whose labels lie between the two.
pub fn is_above(
    alloc: Global,
    fanins: &[Items<NetId>],
    readers: &[Items<NetId>],
    labels: &[Label],
    above: NetId,
    net: NetId,
) -> Result<bool, Memory>
    requires below { AllBelow fanins.now }
    requires readers { HasReaders fanins.now readers.now }
    requires ordered { IsOrdered fanins.now labels.now }
    ensures { IfOk result
        (λ yes. MatchBool yes (IsAbove (reads_by fanins.now) above.0 net.0)
        (IsAbove (reads_by fanins.now) above.0 net.0 → ⊥)) }
{
    let (low, high) = (label_of(labels, above), label_of(labels, net));
    let starts = row_of(fanins, net);
    let found = reach(alloc, Way::Up, fanins, readers, labels, starts, low, high)?;
    Ok(found.contains(&above))
}

/// The nets of which this one is above, ascending, for any number. The time grows with the number of those nets, of their
/// fanins and of what the lists of readers have for them.
pub fn below(
    alloc: Global,
    fanins: &[Items<NetId>],
    readers: &[Items<NetId>],
    net: NetId,
) -> Result<Items<NetId>, Memory>
    requires below { AllBelow fanins.now }
    requires readers { HasReaders fanins.now readers.now }
    ensures ascending { IfOk result (λ nets. ids_ascend nets ≡ true) }
    ensures members { IfOk result
        (λ nets. (n : ℕ) → IsTrue (has_id nets n) ↔ IsAbove (reads_by fanins.now) net.0 n) }
{
    let starts = readers_of(alloc, fanins, readers, net)?;
    let least = Label::new(0, 0);
    let found = search(
        alloc,
        Way::Down,
        fanins,
        readers,
        &[],
        starts.as_slice(),
        least,
        least,
    )?;
    let mut nets = Vec::from_slice(alloc, found.as_slice())?;
    nets.sort_unstable();
    nets.dedup();
    Ok(Items::of(nets))
}

/// The nets that read this one, as its list of readers has them.
fn readers_of(
    alloc: Global,
    fanins: &[Items<NetId>],
    readers: &[Items<NetId>],
    net: NetId,
) -> Result<Vec<NetId>, Memory>
    requires { HasReaders fanins.now readers.now }
    ensures { IfOk result
        (λ nets. (n : ℕ) → has_id nets.items n ≡ has_id (row fanins.now n) net.0) }
{
    let mut nets = Vec::new(alloc);
    for reader in row_of(readers, net) {
        if reads(fanins, *reader, net) {
            nets.push(*reader)?;
        }
    }
    Ok(nets)
}
