ghost use Rattle.std.specs.Prelude.{◌≡◌, ◌<◌, ◌≤◌, ◌∷◌, ◌++◌, [], All, IfOk, MatchOption, OnOk, filter, length, map, slice_set};
ghost use Rattle.std.specs.Option.{option_map};
ghost use Rattle.mv_graph.specs.Nets.{has_id};
ghost use Rattle.mv_net.specs.Nets.{slot};
ghost use Rattle.mv_gains.specs.Candidates.{IsBest, IsKernelCandidate, NoneSaves};
ghost use Rattle.mv_gains.specs.Gains.{AreTablesBut, covers_at};
ghost use Rattle.mv_gains.specs.Kernels.{AreCandidates};
ghost use Rattle.mv_base.specs.declared.number.NetId.{NetId};
ghost use Rattle.mv_gains.specs.Renewing.{AreGains, AreNumbers, AreSameTables, AreUnseenElse, IsPut, is_other};
ghost use Rattle.mv_gains.specs.Tables.{IsReady};
ghost use Rattle.mv_gains.specs.declared.leader.Offer.{Offer as an_offer};

use crate::kernels::{Candidate, add_kernels};
use crate::leader::{Offer, leader_of};
use crate::marks::mark_parts;
use crate::tables::lines_of;
use crate::worth::refresh_all;
use mv_base::{Items, Memory, NetId};
use mv_cover::Cube;
use mv_divide::{Part, parts};
use mv_net::Network;
use std::alloc::Global;
use std::marker::Model;

/// The covers of the tables, by number of net, and their kernels, with what was worked out of them.
#[derive(Drop)]
struct Kept {
    covers: Vec<Items<Part>>,
    candidates: Vec<Candidate>,
    /// For each net when a table that reads it last changed.
    changed: Vec<u64>,
    now: u64,
}

/// The covers of the tables of a network, by number of net, with what taking their kernels out saves. It is kept from one
/// divisor to the next: only what a change of a table touches is worked out again.
#[derive(Drop)]
pub struct Gains {
    kept: Kept,
}

impl Model for Gains {
    ghost use Rattle.std.specs.Prelude.{List};
    ghost use Rattle.mv_divide.specs.declared.part.Part.{Part as a_part};

    ghost Value = { List (List a_part) };

    ghost use Rattle.mv_gains.specs.Renewing.{AreGains};

    ghost view = { λ g. g.kept.covers.items };

    ghost invariant = { λ g. AreGains g.kept };
}

impl Gains {
    /// The covers of the tables of the network. What their kernels save isn't worked out yet.
    pub fn of(alloc: Global, net: &Network) -> Result<Gains, Memory>
        ensures { IfOk result (λ gains. gains ≡ map covers_at net.now.nets) }
    {
        let kept = renewed(
            alloc,
            net,
            nothing(alloc),
            all_numbers(alloc, net)?.as_slice(),
        )?;
        Ok(Gains { kept })
    }

    /// The covers of the tables of the network, of which those of these nets may have changed, and some of these may have come.
    pub fn update(self, alloc: Global, net: &Network, waiting: &[NetId]) -> Result<Gains, Memory>
        requires more { length self ≤ length net.now.nets }
        requires below { All (λ (n : NetId). n.0 < length net.now.nets) waiting.now }
        requires others { AreTablesBut covers_at waiting.now net.now.nets self }
        ensures { IfOk result (λ gains. gains ≡ map covers_at net.now.nets) }
    {
        let kept = renewed(alloc, net, self.kept, waiting)?;
        Ok(Gains { kept })
    }

    /// The kernel that is best taken out of the tables of the network: the least of those that save the most, or None where
    /// none saves. A cover of more than `MAX_KERNELS` kernels gives none.
    pub fn best(&mut self, net: &Network) -> Result<Option<Items<Cube>>, Memory>
        requires { self.old ≡ map covers_at net.now.nets }
        ensures best { IfOk result (λ best. MatchOption best
            (NoneSaves IsKernelCandidate net.now.nets)
            (IsBest IsKernelCandidate net.now.nets)) }
        ensures same { self.new ≡ self.old }
    {
        best_in(&mut self.kept, net)
    }
}

/// The best of the kernels, if one saves. What isn't known of them is worked out.
fn best_in(kept: &mut Kept, net: &Network) -> Result<Option<Items<Cube>>, Memory>
    requires covers { kept.old.covers.items ≡ map covers_at net.now.nets }
    requires gains { AreGains kept.old }
    ensures best { IfOk result (λ best. MatchOption best
        (NoneSaves IsKernelCandidate net.now.nets)
        (IsBest IsKernelCandidate net.now.nets)) }
    ensures same { kept.new.covers.items ≡ kept.old.covers.items }
    ensures gains { AreGains kept.new }
{
    net.well_formed();
    kept.now = kept.now.saturating_add(1);
    refresh_all(
        net,
        kept.covers.as_slice(),
        kept.changed.as_slice(),
        kept.now,
        kept.candidates.as_mut_slice(),
    )?;
    let best = leader_of(kept.candidates.as_slice())?;
    Ok(divisor_of(best))
}

/// The divisor that is offered, if one is.
fn divisor_of(best: Option<Offer>) -> Option<Items<Cube>>
    ensures { result ≡ option_map (λ (o : an_offer). o.divisor) best }
{
    match best {
        Some(offer) => Some(offer.divisor),
        None => None,
    }
}

/// No table.
fn nothing(alloc: Global) -> Kept
    ensures gains { AreGains result }
    ensures none { result.covers.items ≡ [] }
{
    Kept {
        covers: Vec::new(alloc),
        candidates: Vec::new(alloc),
        changed: Vec::new(alloc),
        now: 0,
    }
}

/// The numbers of all nets.
pub fn all_numbers(alloc: Global, net: &Network) -> Result<Vec<NetId>, Memory>
    ensures { IfOk result (λ list. AreNumbers (length net.now.nets) list.items) }
{
    let mut list = Vec::new(alloc);
    for number in 0..net.next_number() {
        list.push(NetId(number))?;
    }
    Ok(list)
}

/// The covers of the tables of the network, where those of these nets are put anew.
fn renewed(alloc: Global, net: &Network, kept: Kept, waiting: &[NetId]) -> Result<Kept, Memory>
    requires gains { AreGains kept }
    requires more { length kept.covers.items ≤ length net.now.nets }
    requires below { All (λ (n : NetId). n.0 < length net.now.nets) waiting.now }
    requires others { AreTablesBut covers_at waiting.now net.now.nets kept.covers.items }
    ensures gains { IfOk result (λ new. AreGains new) }
    ensures covers { IfOk result (λ new. new.covers.items ≡ map covers_at net.now.nets) }
{
    let mut kept = grown(alloc, kept, net.next_number() as usize)?;
    put_covers(alloc, net, waiting, &mut kept)?;
    let Kept {
        covers,
        candidates,
        changed,
        now,
    } = kept;
    let left = without(alloc, candidates, waiting)?;
    let candidates = with_kernels(alloc, covers.as_slice(), left, waiting)?;
    Ok(Kept {
        covers,
        candidates,
        changed,
        now,
    })
}

/// So many tables: those that come are empty.
fn grown(alloc: Global, kept: Kept, count: usize) -> Result<Kept, Memory>
    requires gains { AreGains kept }
    requires more { length kept.covers.items ≤ count }
    ensures gains { IfOk result (λ new. AreGains new) }
    ensures long { IfOk result (λ new. length new.covers.items ≡ count) }
    ensures same { IfOk result (λ new. AreSameTables kept.covers.items new.covers.items) }
{
    let mut kept = kept;
    for _number in kept.covers.len()..count {
        grow(alloc, &mut kept)?;
    }
    Ok(kept)
}

/// An empty table comes.
fn grow(alloc: Global, kept: &mut Kept) -> Result<(), Memory>
    requires { AreGains kept.old }
    ensures gains { OnOk result (AreGains kept.new) }
    ensures covers { OnOk result (kept.new.covers.items ≡ kept.old.covers.items ++ [] ∷ []) }
{
    kept.covers.push(Items::new(alloc))?;
    kept.changed.push(kept.now)?;
    Ok(())
}

/// Puts the covers of the tables of these nets anew.
fn put_covers(
    alloc: Global,
    net: &Network,
    waiting: &[NetId],
    kept: &mut Kept,
) -> Result<(), Memory>
    requires ready { All IsReady kept.old.covers.items }
    requires long { length kept.old.covers.items ≡ length net.now.nets }
    requires below { All (λ (n : NetId). n.0 < length net.now.nets) waiting.now }
    requires others { AreTablesBut covers_at waiting.now net.now.nets kept.old.covers.items }
    ensures covers { OnOk result (kept.new.covers.items ≡ map covers_at net.now.nets) }
    ensures put { OnOk result (IsPut kept.old kept.new) }
{
    for n in waiting {
        put_cover(alloc, net, *n, kept)?;
    }
    Ok(())
}

/// Puts the covers of the net's table anew, and marks the nets that it read or reads.
fn put_cover(alloc: Global, net: &Network, n: NetId, kept: &mut Kept) -> Result<(), Memory>
    requires ready { All IsReady kept.old.covers.items }
    requires below { n.0 < length kept.old.covers.items }
    requires long { length kept.old.covers.items ≡ length net.now.nets }
    ensures covers { OnOk result (kept.new.covers.items
        ≡ slice_set kept.old.covers.items n.0 (covers_at (slot net.now.nets n.0))) }
    ensures put { OnOk result (IsPut kept.old kept.new) }
{
    net.well_formed();
    let place = n.0 as usize;
    let lines = lines_of(&net.parts().nets.as_slice()[place]);
    let parts = Items::of(parts(alloc, lines)?);
    mark_parts(&mut kept.changed, kept.now, kept.covers[place].as_slice());
    mark_parts(&mut kept.changed, kept.now, parts.as_slice());
    kept.covers[place] = parts;
    Ok(())
}

/// The candidates of all other tables.
fn without(alloc: Global, list: Vec<Candidate>, waiting: &[NetId]) -> Result<Vec<Candidate>, Memory>
    ensures { IfOk result (λ left. left.items ≡ filter (is_other waiting.now) list.items) }
{
    let mut left = Vec::new(alloc);
    for candidate in list {
        keep(&mut left, waiting, candidate)?;
    }
    Ok(left)
}

/// Adds the candidate, if it isn't of one of these tables.
fn keep(left: &mut Vec<Candidate>, waiting: &[NetId], candidate: Candidate) -> Result<(), Memory>
    ensures { OnOk result
        (left.new.items ≡ left.old.items ++ filter (is_other waiting.now) (candidate ∷ [])) }
{
    if has_net(waiting, candidate.table) {
        return Ok(());
    }
    Ok(left.push(candidate)?)
}

/// Whether the net is one of these.
fn has_net(nets: &[NetId], net: NetId) -> bool
    ensures { result ≡ has_id nets.now net.0 }
{
    nets.iter().any(|other| other.0 == net.0)
}

/// The candidates, and the kernels of the tables that wait.
fn with_kernels(
    alloc: Global,
    covers: &[Items<Part>],
    list: Vec<Candidate>,
    waiting: &[NetId],
) -> Result<Vec<Candidate>, Memory>
    requires below { All (λ (n : NetId). n.0 < length covers.now) waiting.now }
    requires candidates { AreCandidates covers.now waiting.now list.items }
    ensures candidates { IfOk result (λ new. AreCandidates covers.now [] new.items) }
    ensures unseen { IfOk result (λ new. AreUnseenElse list.items new.items) }
{
    let mut list = list;
    for n in waiting {
        add_kernels(alloc, &mut list, *n, covers[n.0 as usize].as_slice())?;
    }
    Ok(list)
}
