ghost use Rattle.std.specs.Prelude.{◌≡◌, ◌<◌, ◌≤◌, ◌+◌, ◌∷◌, ◌↔◌, ℕ, [], length, slice_index, IfOk, IfSome, IsTrue, OnOk, All, MatchOption, nat_lt};
ghost use Rattle.std.specs.List.{list_all};
ghost use Rattle.mv_base.specs.declared.number.NetId.{NetId};
ghost use Rattle.mv_base.specs.declared.limits.TheConstants.{MAX_NETS};
ghost use Rattle.mv_graph.specs.Nets.{AllBelow};
ghost use Rattle.mv_graph.specs.Above.{IsAcyclic, reads_by};
ghost use Rattle.mv_graph.specs.Orders.{IsSortedBy};
ghost use Rattle.mv_graph.specs.Sorting.{IsSorting, ArePlaced, HasWaited, HasFinished, HasReleased, HasLooked, net_at, waiters};

use crate::rows::{empty_rows, push_to};
use mv_base::{Items, MAX_NETS, Memory, NetId};
use std::alloc::Global;

/// The nets by number in an order in which each stands behind its columns (Kahn 1962), or None where some net is
/// above itself. `columns` has for each net the nets that its table has as columns. The time grows with the number
/// of nets and columns. The only error is want of memory.
#[tactic(auto, using(crate::proofs::Finished::at_end))]
pub fn sorted(alloc: Global, columns: &[Items<NetId>]) -> Result<Option<Items<NetId>>, Memory>
    requires below { AllBelow columns.now }
    requires few { length columns.now ≤ MAX_NETS }
    ensures order { IfOk result (λ order. IfSome order (λ nets. IsSortedBy columns.now nets)) }
    ensures acyclic { IfOk result
        (λ order. MatchOption order (IsAcyclic (reads_by columns.now) → ⊥)
        (λ _. IsAcyclic (reads_by columns.now))) }
{
    let mut sorting = Sorting::new(alloc, columns)?;
    sorting.look_at_each(columns)?;
    sorting.settle_each(columns)?;
    if are_ranked(sorting.ranks.as_slice()) {
        Ok(Some(Items::of(sorting.order)))
    } else {
        Ok(None)
    }
}

/// Nets as they are put in an order in which each stands behind its columns.
#[derive(Drop)]
struct Sorting {
    /// The place of each net in the order, from 1, and 0 while it has none.
    ranks: Vec<usize>,
    /// How many of a net's columns, from the first on, are known to be in the order.
    passed: Vec<usize>,
    /// For each net the nets that wait until it is in the order.
    waiting: Items<Items<NetId>>,
    /// The nets that are in the order.
    order: Vec<NetId>,
}

impl Sorting {
    /// The empty order.
    fn new(alloc: Global, columns: &[Items<NetId>]) -> Result<Self, Memory>
        ensures { IfOk result (λ s. ArePlaced columns.now s 0 0) }
    {
        Ok(Sorting {
            ranks: vec![in alloc; 0; columns.len()]?,
            passed: vec![in alloc; 0; columns.len()]?,
            waiting: empty_rows(alloc, columns.len())?,
            order: Vec::new(alloc),
        })
    }

    /// Looks at each net once.
    #[tactic(auto, using(crate::proofs::Waiting::placed_next))]
    fn look_at_each(&mut self, columns: &[Items<NetId>]) -> Result<(), Memory>
        requires below { AllBelow columns.now }
        requires few { length columns.now ≤ MAX_NETS }
        requires none { ArePlaced columns.now self.old 0 0 }
        ensures { OnOk result (ArePlaced columns.now self.new 0 (length columns.now)) }
    {
        for number in 0..columns.len() {
            self.look(columns, NetId(number as u32))?;
        }
        Ok(())
    }

    /// Goes along the order, and looks again at the nets that wait for each of its nets.
    fn settle_each(&mut self, columns: &[Items<NetId>]) -> Result<(), Memory>
        requires below { AllBelow columns.now }
        requires placed { ArePlaced columns.now self.old 0 (length columns.now) }
        ensures { OnOk result
            (ArePlaced columns.now self.new (length self.new.order.items) (length columns.now)) }
    {
        let mut place = 0;
        while place < self.order.len() {
            self.settle(columns, place)?;
            place += 1;
        }
        Ok(())
    }

    /// Looks again at the nets that wait for the net at this place of the order.
    fn settle(&mut self, columns: &[Items<NetId>], place: usize) -> Result<(), Memory>
        requires below { AllBelow columns.now }
        requires placed { ArePlaced columns.now self.old place (length columns.now) }
        requires inside { place < length self.old.order.items }
        ensures { OnOk result (ArePlaced columns.now self.new (place + 1) (length columns.now)) }
    {
        let net = self.order[place];
        let nets = self.release(net);
        self.look_at(columns, nets.as_slice())
    }

    /// Takes the nets that wait for a net.
    fn release(&mut self, net: NetId) -> Items<NetId>
        requires { net.0 < length self.old.waiting }
        ensures nets { result ≡ waiters self.old net.0 }
        ensures rest { HasReleased self.old self.new net }
    {
        let none = Items::new(self.waiting.allocator());
        self.waiting.replace(net.0 as usize, none)
    }

    /// Looks at these nets.
    fn look_at(&mut self, columns: &[Items<NetId>], nets: &[NetId]) -> Result<(), Memory>
        requires below { AllBelow columns.now }
        requires sorting { IsSorting columns.now self.old }
        requires nets { All (λ (n : NetId). n.0 < length columns.now) nets.now }
        ensures { OnOk result (HasLooked columns.now self.old self.new nets.now) }
    {
        for net in nets {
            self.look(columns, *net)?;
        }
        Ok(())
    }

    /// Puts a net at the end of the order, or lets it wait for the first of its columns that isn't in the order.
    fn look(&mut self, columns: &[Items<NetId>], net: NetId) -> Result<(), Memory>
        requires below { AllBelow columns.now }
        requires sorting { IsSorting columns.now self.old }
        requires net { net.0 < length columns.now }
        ensures { OnOk result (HasLooked columns.now self.old self.new (net ∷ [])) }
    {
        let number = net.0 as usize;
        if self.ranks[number] > 0 {
            return Ok(());
        }
        let fanins = columns[number].as_slice();
        let place = first_open(self.ranks.as_slice(), fanins, self.passed[number]);
        if place < fanins.len() {
            self.wait(net, place, fanins[place])
        } else {
            self.finish(net)
        }
    }

    /// Lets a net wait for another, which stands at this place of its columns.
    fn wait(&mut self, net: NetId, place: usize, above: NetId) -> Result<(), Memory>
        requires net { net.0 < length self.old.passed.items }
        requires above { above.0 < length self.old.waiting }
        ensures { OnOk result (HasWaited self.old self.new net place above) }
    {
        self.passed[net.0 as usize] = place;
        push_to(&mut self.waiting, above.0 as usize, net)
    }

    /// Puts a net at the end of the order.
    fn finish(&mut self, net: NetId) -> Result<(), Memory>
        requires { net.0 < length self.old.ranks.items }
        ensures { OnOk result (HasFinished self.old self.new net) }
    {
        self.order.push(net)?;
        self.ranks[net.0 as usize] = self.order.len();
        Ok(())
    }
}

/// Whether each net has a rank.
fn are_ranked(ranks: &[usize]) -> bool
    ensures { result ≡ list_all (λ r. nat_lt 0 r) ranks.now }
{
    ranks.iter().all(|rank| *rank > 0)
}

/// The first place from `start` on whose net has no rank, or the number of nets where each has one.
fn first_open(ranks: &[usize], nets: &[NetId], start: usize) -> usize
    requires { All (λ (c : NetId). c.0 < length ranks.now) nets.now }
    ensures before { (k : ℕ) → start ≤ k → k < result
        → 0 < slice_index ranks.now (net_at nets.now k) }
    ensures stop { result < length nets.now → slice_index ranks.now (net_at nets.now result) ≡ 0 }
{
    for place in start..nets.len() {
        if ranks[nets[place].0 as usize] == 0 {
            return place;
        }
    }
    nets.len()
}
