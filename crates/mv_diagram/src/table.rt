ghost use Rattle.std.specs.Prelude.{◌≡◌, ◌+◌, ◌<◌, ◌≤◌, ◌==◌, ℕ, true, length, IfOk, IfErr, OnErr, if◌then◌else◌};
ghost use Rattle.mv_diagram.specs.Sets.{Point, greatest, holds, has_diagram, node_at, with_value};
ghost use Rattle.mv_diagram.specs.Sound.{IsReduced, IsTest, first, order};
ghost use Rattle.mv_diagram.specs.Works.{AddsNodes, HasPut, IsAbsent, IsFull, IsLacking};
ghost use Rattle.mv_diagram.specs.First.{IsSplit};
ghost use Rattle.mv_pool.specs.Places.{held_in};
ghost use Rattle.mv_diagram.specs.Parts.{AddsParts};

use crate::{Dd, Node, Nodes, Test};
use mv_pool::{Full, Pool};

/// The nodes of all diagrams, and the numbers of values of the variables.
#[derive(Drop)]
pub struct Table {
    pub(crate) counts: Vec<u16>,
    pub(crate) pool: Pool<Node>,
}

/// The first node of a diagram, or None for zero and one.
pub fn node(table: &Table, d: Dd) -> Option<Node>
    requires { has_diagram table.now.pool.places d.0 ≡ true }
    ensures { result ≡ node_at table.now.pool.places d.0 }
{
    match d.place() {
        Some(id) => Some(*table.pool.get(id)),
        None => None,
    }
}

/// What a diagram without tests of earlier variables is at the greatest value of this variable: where all its tests
/// of the variable say no. The time grows with the values of the variable.
pub fn otherwise(table: &Table, d: Dd, var: u32) -> Dd
    requires sound { IsReduced table.now.counts.items table.now.pool.places }
    requires variable { var < length table.now.counts.items }
    requires held { has_diagram table.now.pool.places d.0 ≡ true }
    requires later { order var 0 ≤ first table.now.counts.items table.now.pool.places d.0 }
    ensures held { has_diagram table.now.pool.places result.0 ≡ true }
    ensures later { order (var + 1) 0
        ≤ first table.now.counts.items table.now.pool.places result.0 }
    ensures set { (p : Point) → holds table.now.counts.items table.now.pool.places result.0 p ≡
        holds table.now.counts.items table.now.pool.places d.0
        (with_value p var (greatest table.now.counts.items var)) }
{
    let mut rest = d;
    while let Some(next) = node(table, rest)
        && next.test.var == var
    {
        rest = next.no;
    }
    rest
}

/// What a diagram is where the test says yes, and where it says no. The diagram has no earlier test.
pub fn split(table: &Table, d: Dd, test: Test) -> (Dd, Dd)
    requires sound { IsReduced table.now.counts.items table.now.pool.places }
    requires test { IsTest table.now.counts.items test }
    requires held { has_diagram table.now.pool.places d.0 ≡ true }
    requires later { order test.var test.value
        ≤ first table.now.counts.items table.now.pool.places d.0 }
    ensures { IsSplit table.now.counts.items table.now.pool.places d.0 test result.0.0 result.1.0 }
{
    let Some(node) = node(table, d) else {
        return (d, d);
    };
    if node.test == test {
        return (node.yes, node.no);
    }
    (otherwise(table, d, test.var), d)
}

/// The diagram with this node first.
fn put(pool: &mut Pool<Node>, node: Node) -> Result<Dd, Full>
    ensures ok { IfOk result (λ d. HasPut pool.old pool.new node d.0) }
    ensures same { OnErr result (pool.new ≡ pool.old) }
    ensures absent { OnErr result (IsAbsent pool.old.places node) }
    ensures full { OnErr result (pool.old.cap ≤ held_in pool.old.places) }
{
    match pool.put(node) {
        Ok(id) => Ok(Dd::at(id)),
        Err(full) => Err(full),
    }
}

/// The diagram of the points that pass the test and are in `yes`, and of those that don't and are in `no`. It takes a
/// node unless such a diagram is held.
pub fn make(table: &mut Table, test: Test, yes: Dd, no: Dd) -> Result<Dd, Nodes>
    requires sound { IsReduced table.old.counts.items table.old.pool.places }
    requires test { IsTest table.old.counts.items test }
    requires yes_held { has_diagram table.old.pool.places yes.0 ≡ true }
    requires no_held { has_diagram table.old.pool.places no.0 ≡ true }
    requires yes_later { order (test.var + 1) 0
        ≤ first table.old.counts.items table.old.pool.places yes.0 }
    requires no_later { order test.var test.value
        < first table.old.counts.items table.old.pool.places no.0 }
    ensures adds { AddsNodes table.old table.new }
    ensures held { IfOk result (λ d. has_diagram table.new.pool.places d.0 ≡ true) }
    ensures later { IfOk result
        (λ d. order test.var test.value ≤ first table.new.counts.items table.new.pool.places d.0) }
    ensures set { IfOk result
        (λ d. (p : Point) → holds table.new.counts.items table.new.pool.places d.0 p ≡
        (if p test.var == test.value then holds table.old.counts.items table.old.pool.places yes.0 p
        else holds table.old.counts.items table.old.pool.places no.0 p)) }
    ensures added { AddsParts table.new.counts.items table.old.pool.places table.new.pool.places
        (λ p.
        if p test.var == test.value then holds table.old.counts.items table.old.pool.places yes.0 p
        else holds table.old.counts.items table.old.pool.places no.0 p) }
    ensures full { IfErr result (IsFull table.new.pool) }
    ensures lacking { IfErr result
        (λ e. IsLacking table.new.counts.items table.new.pool.places (λ p.
        if p test.var == test.value then holds table.old.counts.items table.old.pool.places yes.0 p
        else holds table.old.counts.items table.old.pool.places no.0 p)) }
{
    if otherwise(table, no, test.var) == yes {
        return Ok(no);
    }
    match put(&mut table.pool, Node { test, yes, no }) {
        Ok(d) => Ok(d),
        Err(Full) => Err(Nodes {
            cap: table.pool.cap(),
        }),
    }
}
