ghost use Rattle.std.specs.Prelude.{◌≡◌, ◌↔◌, ℕ, true, IfOk, IsTrue, MatchBool, slice_index};
ghost use Rattle.mv_graph.specs.Nets.{has_id};
ghost use Rattle.mv_net.specs.Order.{IsOrder};
ghost use Rattle.mv_solve.specs.Asked.{asked_of, HasAsked, IsSolution, NoSolution};

use crate::Asked;
use crate::finding::find;
use crate::first::value_of;
use mv_base::{Memory, NetId, Value};
use mv_net::Network;
use std::marker::Model;

/// What looks for an assignment that a network allows, in which some nets have given values. It is made once for a
/// network, and takes no memory behind that. It is seen as the order in which the nets take their values, what is asked
/// of each net by its number, and the values by number that were found last.
#[derive(Drop)]
pub struct Solver {
    order: Vec<NetId>,
    asked: Vec<Asked>,
    known: Vec<Asked>,
    marks: Vec<bool>,
    bounds: Vec<usize>,
    values: Vec<u16>,
    heads: Vec<Option<NetId>>,
    nexts: Vec<Option<NetId>>,
    way: Vec<NetId>,
    starts: Vec<usize>,
    places: Vec<usize>,
}

impl Model for Solver {
    ghost use Rattle.mv_solve.specs.Search.{Search};

    ghost Value = { Search };

    ghost use Rattle.mv_solve.specs.Way.{IsRoomy};

    ghost view = { λ s. record {
      order = s.order.items;
      asked = s.asked.items;
      values = s.values.items;
    } };

    ghost invariant = { λ s. IsRoomy s.order.items s.asked.items s.known.items s.marks.items
        s.bounds.items s.values.items s.heads.items s.nexts.items s.way.items s.starts.items
        s.places.items };
}

impl Solver {
    /// A solver for the network, and for each other one of which its order is an order. Nothing is asked.
    pub fn with_room(net: &Network) -> Result<Solver, Memory>
        ensures order { IfOk result (λ solver. IsOrder net.now.nets solver.order) }
        ensures asked { IfOk result
            (λ solver. (at : ℕ → ℕ) → HasAsked solver.order solver.asked at) }
    {
        let order = net.order()?;
        let alloc = *order.allocator();
        let count = net.next_number() as usize;
        let asked = vec![in alloc; Asked::Anything; count]?;
        let known = vec![in alloc; Asked::Anything; count]?;
        let marks = vec![in alloc; false; count]?;
        let bounds = vec![in alloc; 0; order.len()]?;
        let values = vec![in alloc; 0; count]?;
        let heads = vec![in alloc; None; count]?;
        let nexts = vec![in alloc; None; count]?;
        let way = vec![in alloc; NetId(0); order.len()]?;
        let starts = vec![in alloc; 0; order.len()]?;
        let places = vec![in alloc; 0; count]?;
        Ok(Solver {
            order,
            asked,
            known,
            marks,
            bounds,
            values,
            heads,
            nexts,
            way,
            starts,
            places,
        })
    }

    /// Nothing is asked any more. No memory.
    pub fn clear(&mut self)
        ensures asked { (at : ℕ → ℕ) → HasAsked self.new.order self.new.asked at }
        ensures order { self.new.order ≡ self.old.order }
        ensures values { self.new.values ≡ self.old.values }
    {
        ask_nothing(self.asked.as_mut_slice());
    }

    /// The net is to have this value besides what is asked already. Where it is to have two different values there is
    /// no solution. No memory.
    pub fn give(&mut self, net: NetId, value: Value)
        requires { has_id self.old.order net.0 ≡ true }
        ensures asked { (at : ℕ → ℕ) → HasAsked self.new.order self.new.asked at
            ↔ (HasAsked self.old.order self.old.asked at × (at net.0 ≡ value.0)) }
        ensures order { self.new.order ≡ self.old.order }
        ensures values { self.new.values ≡ self.old.values }
    {
        let number = net.0 as usize;
        let asked = self.asked[number].and(value);
        self.asked[number] = asked;
    }

    /// Whether the network has an assignment with the values that are asked for. Then the values are such a one. No
    /// memory. The time may double with each choice in the worst case; without choices it is one walk.
    pub fn solve(&mut self, net: &Network) -> bool
        requires { IsOrder net.now.nets self.old.order }
        ensures found { MatchBool result
            (IsSolution net.now.nets self.new.order self.new.asked (slice_index self.new.values))
            (NoSolution net.now.nets self.new.order self.new.asked) }
        ensures order { self.new.order ≡ self.old.order }
        ensures asked { self.new.asked ≡ self.old.asked }
    {
        find(
            net,
            self.order.as_slice(),
            self.asked.as_slice(),
            self.known.as_mut_slice(),
            self.marks.as_mut_slice(),
            self.bounds.as_mut_slice(),
            self.values.as_mut_slice(),
            self.heads.as_mut_slice(),
            self.nexts.as_mut_slice(),
            self.way.as_mut_slice(),
            self.starts.as_mut_slice(),
            self.places.as_mut_slice(),
        )
    }

    /// The value of a net in what was found last. No memory.
    pub fn value(&self, n: NetId) -> Value
        ensures { result.0 ≡ slice_index self.now.values n.0 }
    {
        value_of(self.values.as_slice(), n)
    }
}

/// Asks for nothing of any net.
fn ask_nothing(asked: &mut [Asked])
    ensures { (n : ℕ) → asked_of asked.new n ≡ Asked.Anything }
{
    for at in 0..asked.len() {
        asked[at] = Asked::Anything;
    }
}
