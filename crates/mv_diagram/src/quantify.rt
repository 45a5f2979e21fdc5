ghost use Rattle.std.specs.Prelude.{◌≡◌, ◌+◌, ◌<◌, ◌≤◌, ℕ, true, length, IfOk, IfErr, All, vec_capacity, if◌then◌else◌};
ghost use Rattle.mv_pool.specs.Walks.{mark};
ghost use Rattle.mv_diagram.specs.Sets.{holds, has_diagram};
ghost use Rattle.mv_diagram.specs.Sound.{IsReduced, IsTest, first, order};
ghost use Rattle.mv_diagram.specs.Works.{AddsNodes, IsFull};
ghost use Rattle.mv_diagram.specs.Results.{Remembers};
ghost use Rattle.mv_diagram.specs.Quantified.{IsJoined, IsQuantified, Quantifies, is_one_of, joined_set, joining, meet_of};
ghost use Rattle.mv_diagram.specs.Parts.{AddsCombined, AddsParts};

use crate::apply::{answer_of, apply, end, part};
use crate::meet::unmark;
use crate::memo::{Key, Memo, Operation, keep, recall};
use crate::node::{ONE, ZERO};
use crate::table::{Table, make};
use crate::{Dd, Nodes, Test};

/// Marks these variables, within the room that is there.
pub fn choose(vars: &[u32], count: usize, chosen: &mut Vec<bool>)
    requires below { All (λ v. v < count) vars.now }
    requires room { count ≤ vec_capacity chosen.old }
    ensures long { length chosen.new.items ≡ count }
    ensures marked { (v : ℕ) → mark chosen.new.items v ≡ is_one_of vars.now v }
    ensures room { vec_capacity chosen.old ≤ vec_capacity chosen.new }
{
    unmark(chosen, count);
    for var in vars {
        chosen[*var as usize] = true;
    }
}

/// The operation that gives the answer where one of two diagrams gives it.
fn joining_of(answer: bool) -> Operation
    ensures { result ≡ joining answer }
{
    if answer {
        Operation::Or
    } else {
        Operation::And
    }
}

/// Joins two diagrams where the variable of the test is chosen, or makes the test of them.
fn join(
    table: &mut Table,
    memo: &mut Memo,
    joined: bool,
    answer: bool,
    test: Test,
    yes: Dd,
    no: Dd,
) -> Result<Dd, Nodes>
    requires sound { IsReduced table.old.counts.items table.old.pool.places }
    requires remembers { Remembers table.old.counts.items table.old.pool.places memo.old.entries }
    requires test { IsTest table.old.counts.items test }
    requires yes_held { has_diagram table.old.pool.places yes.0 ≡ true }
    requires no_held { has_diagram table.old.pool.places no.0 ≡ true }
    requires yes_later { order (test.var + 1) 0
        ≤ first table.old.counts.items table.old.pool.places yes.0 }
    requires no_later { order test.var test.value
        < first table.old.counts.items table.old.pool.places no.0 }
    ensures adds { AddsNodes table.old table.new }
    ensures remembers { Remembers table.new.counts.items table.new.pool.places memo.new.entries }
    ensures ok { IfOk result
        (λ d. IsJoined table.new.counts.items table.new.pool.places joined answer test yes.0 no.0 d.0) }
    ensures added { AddsParts table.new.counts.items table.old.pool.places table.new.pool.places
        (λ p. joined_set table.new.counts.items table.new.pool.places joined answer test yes.0 no.0 p) }
    ensures full { IfErr result (IsFull table.new.pool) }
{
    if joined {
        apply(table, memo, joining_of(answer), yes, no)
    } else {
        make(table, test, yes, no)
    }
}

/// The diagram that has the answer exactly where the meet of two has it at some point that differs in the chosen
/// variables alone. With remembered results each pair of their nodes is visited once. The recursion is as deep as there
/// are tests in their order.
pub fn quantify(
    table: &mut Table,
    memo: &mut Memo,
    done: &mut Memo,
    chosen: &[bool],
    answer: bool,
    a: Dd,
    b: Dd,
) -> Result<Dd, Nodes>
    requires sound { IsReduced table.old.counts.items table.old.pool.places }
    requires remembers { Remembers table.old.counts.items table.old.pool.places memo.old.entries }
    requires quantifies { Quantifies table.old.counts.items table.old.pool.places
        (mark chosen.now) answer done.old.entries }
    requires chosen { length chosen.now ≡ length table.old.counts.items }
    requires left { has_diagram table.old.pool.places a.0 ≡ true }
    requires right { has_diagram table.old.pool.places b.0 ≡ true }
    ensures adds { AddsNodes table.old table.new }
    ensures remembers { Remembers table.new.counts.items table.new.pool.places memo.new.entries }
    ensures quantifies { Quantifies table.new.counts.items table.new.pool.places
        (mark chosen.now) answer done.new.entries }
    ensures ok { IfOk result
        (λ r. IsQuantified table.new.counts.items table.new.pool.places
        (mark chosen.now) answer a.0 b.0 r.0) }
    ensures added { AddsCombined table.new.counts.items
        (mark chosen.now) answer table.old.pool.places table.new.pool.places
        (λ p. meet_of table.new.counts.items table.new.pool.places a.0 b.0 p) }
    ensures full { IfErr result (IsFull table.new.pool) }
{
    if answer_of(Operation::Or, a == ZERO, b == ZERO) {
        return Ok(ZERO);
    }
    let key = Key::of(joining_of(answer), a, b);
    if let Some(known) = recall(done, key) {
        return Ok(known);
    }
    let Some(at) = part(table, a, b) else {
        return Ok(end(answer_of(Operation::And, a == ONE, b == ONE)));
    };
    let yes = match quantify(table, memo, done, chosen, answer, at.yes.0, at.yes.1) {
        Ok(yes) => yes,
        Err(stop) => return Err(stop),
    };
    let joined = chosen[at.test.var as usize];
    if joined && yes == end(answer) {
        return Ok(yes);
    }
    let no = match quantify(table, memo, done, chosen, answer, at.no.0, at.no.1) {
        Ok(no) => no,
        Err(stop) => return Err(stop),
    };
    match join(table, memo, joined, answer, at.test, yes, no) {
        Ok(r) => {
            keep(done, key, r);
            Ok(r)
        }
        Err(stop) => Err(stop),
    }
}
