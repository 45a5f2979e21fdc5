ghost use Rattle.std.specs.Prelude.{◌≡◌, ◌<◌, ◌++◌, ◌||◌, ℕ, true, nat_eq, length, slice_index_or, IfOk, IsTrue, OnOk};
ghost use Rattle.std.specs.List.{position};
ghost use Rattle.mv_base.specs.declared.number.NetId.{NetId as a_net};
ghost use Rattle.mv_graph.specs.Nets.{has_id};
ghost use Rattle.mv_net.specs.Index.{is_held};
ghost use Rattle.mv_net.specs.Nets.{reads_in};
ghost use Rattle.mv_wide.specs.Inners.{inner_vars, vars_beside};

use mv_base::{Memory, NetId};
use mv_factors::Inner;
use mv_net::{Network, Window};
use std::alloc::Global;

/// Whether the net is one of these.
pub fn is_among(nets: &[NetId], n: NetId) -> bool
    ensures { result ≡ has_id nets.now n.0 }
{
    nets.iter().any(|net| *net == n)
}

/// Adds the variables of those of these nets that aren't to be kept. Where the nets are tables whose sets stand from a place
/// on, the set of each may give its value.
fn add_inner(
    inner: &mut Vec<Inner>,
    nets: &[NetId],
    keep: &[NetId],
    vars: &[u32],
    from: Option<usize>,
) -> Result<(), Memory>
    requires { (m : ℕ) → has_id nets.now m ≡ true → m < length vars.now }
    ensures { OnOk result (inner_vars inner.new.items
        ≡ inner_vars inner.old.items ++ vars_beside vars.now keep.now nets.now) }
{
    for (place, net) in nets.iter().enumerate() {
        if !is_among(keep, *net) {
            let var = vars[net.0 as usize];
            let given = from.map(|first| first.saturating_add(place));
            inner.push(Inner { var, given })?;
        }
    }
    Ok(())
}

/// The variables of the tables of the window that are none of its outputs. Their relations stand from a place on.
pub fn hidden_of(alloc: Global, w: &Window, vars: &[u32], from: usize) -> Result<Vec<Inner>, Memory>
    requires { (m : ℕ) → has_id w.now.tables m ≡ true → m < length vars.now }
    ensures { IfOk result (λ inner. inner_vars inner.items
        ≡ vars_beside vars.now w.now.outputs w.now.tables) }
{
    let mut hidden = Vec::new(alloc);
    let outputs = w.outputs.as_slice();
    add_inner(&mut hidden, w.tables.as_slice(), outputs, vars, Some(from))?;
    Ok(hidden)
}

/// The nets that a held net reads, and the net.
#[tactic(auto, using(crate::proofs::Listing::kept_with))]
pub fn kept_of(alloc: Global, net: &Network, n: NetId) -> Result<Vec<NetId>, Memory>
    requires { IsTrue (is_held net.now.nets n.0) }
    ensures { IfOk result (λ keep. (m : ℕ) → has_id keep.items m
        ≡ (reads_in net.now.nets n.0 m || nat_eq n.0 m)) }
{
    let mut keep = Vec::from_slice(alloc, net.fanins(n))?;
    keep.push(n)?;
    Ok(keep)
}

/// The variables of the nets of the window that aren't to be kept. The relations of its tables stand from a place on.
pub fn beside_of(
    alloc: Global,
    w: &Window,
    keep: &[NetId],
    vars: &[u32],
    from: usize,
) -> Result<Vec<Inner>, Memory>
    requires tables { (m : ℕ) → has_id w.now.tables m ≡ true → m < length vars.now }
    requires inputs { (m : ℕ) → has_id w.now.inputs m ≡ true → m < length vars.now }
    ensures { IfOk result (λ inner. inner_vars inner.items
        ≡ vars_beside vars.now keep.now w.now.tables ++ vars_beside vars.now keep.now w.now.inputs) }
{
    let mut beside = Vec::new(alloc);
    add_inner(&mut beside, w.tables.as_slice(), keep, vars, Some(from))?;
    add_inner(&mut beside, w.inputs.as_slice(), keep, vars, None)?;
    Ok(beside)
}

/// The place of a net among these, if it is one of them.
fn place_in(nets: &[NetId], n: NetId) -> Option<usize>
    ensures { result ≡ position (λ m. nat_eq m.0 n.0) nets.now }
{
    nets.iter().position(|net| *net == n)
}

/// The place of a net among some of which it is one.
pub fn place_of(nets: &[NetId], n: NetId) -> usize
    requires { has_id nets.now n.0 ≡ true }
    ensures inside { result < length nets.now }
    ensures here { (d : a_net) → (slice_index_or nets.now result d).0 ≡ n.0 }
{
    place_in(nets, n).unwrap()
}
