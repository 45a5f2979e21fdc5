//! Graphs turned round.
ghost use Rattle.std.specs.Prelude.{◌≡◌, ◌<◌, ◌≤◌, length, IfOk, OnOk, All, if◌then◌else◌, slice_set};
ghost use Rattle.mv_base.specs.declared.limits.TheConstants.{MAX_NETS};
ghost use Rattle.mv_base.specs.declared.number.NetId.{NetId};
ghost use Rattle.mv_graph.specs.Nets.{row, AllBelow};
ghost use Rattle.mv_graph.specs.Transpose.{IsTranspose};
ghost use Rattle.mv_graph.specs.Transposing.{is_last, with_last, IsPutOn};

use crate::rows::{push_to, roomy_rows};
use mv_base::{Items, MAX_NETS, Memory, NetId};
use std::alloc::Global;

/// For each net the nets in whose lists it stands, ascending and each once. The time grows with the number of nets and of
/// those that they name.
pub fn transposed(alloc: Global, rows: &[Items<NetId>]) -> Result<Items<Items<NetId>>, Memory>
    requires below { AllBelow rows.now }
    requires few { length rows.now ≤ MAX_NETS }
    ensures { IfOk result (λ turned. IsTranspose rows.now turned) }
{
    let mut turned = roomy_rows(alloc, uses(alloc, rows)?.as_slice())?;
    for (number, nets) in rows.iter().enumerate() {
        put_on(&mut turned, nets.as_slice(), NetId(number as u32))?;
    }
    Ok(turned)
}

/// How often each net stands in a list, as far as can be counted.
fn uses(alloc: Global, rows: &[Items<NetId>]) -> Result<Vec<u32>, Memory>
    requires { AllBelow rows.now }
    ensures { IfOk result (λ counts. length counts.items ≡ length rows.now) }
{
    let mut counts = vec![in alloc; 0u32; rows.len()]?;
    for nets in rows {
        count_all(&mut counts, nets.as_slice());
    }
    Ok(counts)
}

/// Counts these nets.
fn count_all(counts: &mut [u32], nets: &[NetId])
    requires { All (λ (n : NetId). n.0 < length counts.old) nets.now }
    ensures { length counts.new ≡ length counts.old }
{
    for net in nets {
        let at = net.0 as usize;
        counts[at] = counts[at].saturating_add(1);
    }
}

/// Puts the net at the end of the lists of those that it names.
fn put_on(rows: &mut Items<Items<NetId>>, nets: &[NetId], net: NetId) -> Result<(), Memory>
    requires { All (λ (n : NetId). n.0 < length rows.old) nets.now }
    ensures { OnOk result (IsPutOn rows.old nets.now net rows.new) }
{
    for named in nets {
        put_last(rows, named.0 as usize, net)?;
    }
    Ok(())
}

/// Puts the net at the end of the list at this place, where it may stand already.
fn put_last(rows: &mut Items<Items<NetId>>, at: usize, net: NetId) -> Result<(), Memory>
    requires { at < length rows.old }
    ensures { OnOk result (rows.new ≡ slice_set rows.old at (with_last (row rows.old at) net)) }
{
    if ends_with(rows.as_slice()[at].as_slice(), net) {
        return Ok(());
    }
    push_to(rows, at, net)
}

/// Whether the net stands last in the list.
fn ends_with(nets: &[NetId], net: NetId) -> bool
    ensures { result ≡ is_last nets.now net }
{
    match nets.last() {
        Some(last) => *last == net,
        None => false,
    }
}
