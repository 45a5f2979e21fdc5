ghost use Rattle.std.specs.Prelude.{◌≡◌, ◌+◌, ◌<◌, ◌≤◌, ℕ, Bool, true, false, None, IfOk, IfErr, IfSome, IfNone, if◌then◌else◌};
ghost use Rattle.mv_base.specs.declared.limits.TheConstants.{MAX_VALUES};
ghost use Rattle.mv_diagram.specs.Sets.{Point, holds, has_diagram, node_at};
ghost use Rattle.mv_diagram.specs.Sound.{IsReduced};
ghost use Rattle.mv_diagram.specs.Works.{AddsNodes, IsFull, IsLacking};
ghost use Rattle.mv_diagram.specs.Results.{AreSides, IsResult, Remembers, result_of};
ghost use Rattle.mv_diagram.specs.Parts.{AddsParts};
ghost use Rattle.mv_diagram.specs.First.{AreParted, IsEarlier, IsFirstTest};

use crate::memo::{Key, Memo, Operation, keep, recall};
use crate::node::{ONE, ZERO};
use crate::table::{Table, make, node, split};
use crate::{Dd, Nodes, Test};

/// Whether a point is in the result, by whether it is in the two sets.
pub fn answer_of(operation: Operation, left: bool, right: bool) -> bool
    ensures { result ≡ result_of operation left right }
{
    match operation {
        Operation::And => left && right,
        Operation::Or => left || right,
        Operation::Nand => !(left && right),
    }
}

/// The result where one operand decides it, or says nothing beside the other.
fn at_once(operation: Operation, a: Dd, b: Dd) -> Option<Dd>
    ensures set { IfSome result
        (λ d. (f : ℕ → Bool) → f 0 ≡ false → f 1 ≡ true
        → f d.0 ≡ result_of operation (f a.0) (f b.0)) }
    ensures among { IfSome result
        (λ d. (f : ℕ → Bool) → f 0 ≡ true → f 1 ≡ true → f a.0 ≡ true → f b.0 ≡ true
        → f d.0 ≡ true) }
{
    let (deciding, silent) = match operation {
        Operation::And => (ZERO, ONE),
        Operation::Or => (ONE, ZERO),
        Operation::Nand => return None,
    };
    if a == deciding || b == deciding {
        Some(deciding)
    } else if a == b || b == silent {
        Some(a)
    } else if a == silent {
        Some(b)
    } else {
        None
    }
}

/// The earlier one of two tests.
fn earlier(t: Test, u: Test) -> Test
    requires left { t.value < MAX_VALUES }
    requires right { u.value < MAX_VALUES }
    ensures { IsEarlier t u result }
{
    if t.var < u.var || (t.var == u.var && t.value <= u.value) {
        t
    } else {
        u
    }
}

/// The first test of two diagrams, or None where neither has one.
fn first_test(table: &Table, a: Dd, b: Dd) -> Option<Test>
    requires sound { IsReduced table.now.counts.items table.now.pool.places }
    requires left { has_diagram table.now.pool.places a.0 ≡ true }
    requires right { has_diagram table.now.pool.places b.0 ≡ true }
    ensures some { IfSome result
        (IsFirstTest table.now.counts.items table.now.pool.places a.0 b.0) }
    ensures left { IfNone result (node_at table.now.pool.places a.0 ≡ None) }
    ensures right { IfNone result (node_at table.now.pool.places b.0 ≡ None) }
{
    match (node(table, a), node(table, b)) {
        (Some(x), Some(y)) => Some(earlier(x.test, y.test)),
        (Some(x), None) => Some(x.test),
        (None, Some(y)) => Some(y.test),
        (None, None) => None,
    }
}

/// A test, with what two diagrams are where it says yes, and where it says no.
#[derive(Clone, Copy)]
pub struct Parted {
    pub test: Test,
    pub yes: (Dd, Dd),
    pub no: (Dd, Dd),
}

/// Parts two diagrams by their first test, or answers None where neither has one.
pub fn part(table: &Table, a: Dd, b: Dd) -> Option<Parted>
    requires sound { IsReduced table.now.counts.items table.now.pool.places }
    requires left { has_diagram table.now.pool.places a.0 ≡ true }
    requires right { has_diagram table.now.pool.places b.0 ≡ true }
    ensures some { IfSome result
        (λ at. AreParted table.now.counts.items table.now.pool.places a.0 b.0 at.test at.yes.0.0 at.no.0.0 at.yes.1.0 at.no.1.0) }
    ensures left { IfNone result (node_at table.now.pool.places a.0 ≡ None) }
    ensures right { IfNone result (node_at table.now.pool.places b.0 ≡ None) }
{
    let Some(test) = first_test(table, a, b) else {
        return None;
    };
    let (a_yes, a_no) = split(table, a, test);
    let (b_yes, b_no) = split(table, b, test);
    Some(Parted {
        test,
        yes: (a_yes, b_yes),
        no: (a_no, b_no),
    })
}

/// The diagram of zero or one.
pub fn end(holds: bool) -> Dd
    ensures { result.0 ≡ (if holds then 1 else 0) }
{
    if holds { ONE } else { ZERO }
}

/// The result of an operation by its results where the first test says yes and where it says no. It is remembered.
fn whole(
    table: &mut Table,
    memo: &mut Memo,
    key: Key,
    test: Test,
    yes: Dd,
    no: Dd,
) -> Result<Dd, Nodes>
    requires sound { IsReduced table.old.counts.items table.old.pool.places }
    requires remembers { Remembers table.old.counts.items table.old.pool.places memo.old.entries }
    requires sides { AreSides table.old.counts.items table.old.pool.places key.operation key.left.0 key.right.0 test yes.0 no.0 }
    ensures adds { AddsNodes table.old table.new }
    ensures remembers { Remembers table.new.counts.items table.new.pool.places memo.new.entries }
    ensures ok { IfOk result
        (λ d. IsResult table.new.counts.items table.new.pool.places key.operation key.left.0 key.right.0 d.0) }
    ensures added { AddsParts table.new.counts.items table.old.pool.places table.new.pool.places
        (λ p.
        result_of key.operation (holds table.new.counts.items table.new.pool.places key.left.0 p)
        (holds table.new.counts.items table.new.pool.places key.right.0 p)) }
    ensures full { IfErr result (IsFull table.new.pool) }
    ensures lacking { IfErr result
        (λ e. IsLacking table.new.counts.items table.new.pool.places (λ p.
        result_of key.operation (holds table.new.counts.items table.new.pool.places key.left.0 p)
        (holds table.new.counts.items table.new.pool.places key.right.0 p))) }
{
    match make(table, test, yes, no) {
        Ok(d) => {
            keep(memo, key, d);
            Ok(d)
        }
        Err(stop) => Err(stop),
    }
}

/// The operation on two diagrams, by their first test. With remembered results each pair of their nodes is visited
/// once. The recursion is as deep as there are tests in their order.
pub fn apply(
    table: &mut Table,
    memo: &mut Memo,
    operation: Operation,
    a: Dd,
    b: Dd,
) -> Result<Dd, Nodes>
    requires sound { IsReduced table.old.counts.items table.old.pool.places }
    requires remembers { Remembers table.old.counts.items table.old.pool.places memo.old.entries }
    requires left { has_diagram table.old.pool.places a.0 ≡ true }
    requires right { has_diagram table.old.pool.places b.0 ≡ true }
    ensures adds { AddsNodes table.old table.new }
    ensures remembers { Remembers table.new.counts.items table.new.pool.places memo.new.entries }
    ensures ok { IfOk result
        (λ d. IsResult table.new.counts.items table.new.pool.places operation a.0 b.0 d.0) }
    ensures added { AddsParts table.new.counts.items table.old.pool.places table.new.pool.places
        (λ p.
        result_of operation (holds table.new.counts.items table.new.pool.places a.0 p)
        (holds table.new.counts.items table.new.pool.places b.0 p)) }
    ensures full { IfErr result (IsFull table.new.pool) }
    ensures lacking { IfErr result
        (λ e. IsLacking table.new.counts.items table.new.pool.places (λ p.
        result_of operation (holds table.new.counts.items table.new.pool.places a.0 p)
        (holds table.new.counts.items table.new.pool.places b.0 p))) }
{
    if let Some(d) = at_once(operation, a, b) {
        return Ok(d);
    }
    let key = Key::of(operation, a, b);
    if let Some(d) = recall(memo, key) {
        return Ok(d);
    }
    let Some(at) = part(table, a, b) else {
        return Ok(end(answer_of(operation, a == ONE, b == ONE)));
    };
    let yes = match apply(table, memo, operation, at.yes.0, at.yes.1) {
        Ok(d) => d,
        Err(stop) => return Err(stop),
    };
    let no = match apply(table, memo, operation, at.no.0, at.no.1) {
        Ok(d) => d,
        Err(stop) => return Err(stop),
    };
    whole(table, memo, key, at.test, yes, no)
}
