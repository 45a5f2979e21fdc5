ghost use Rattle.std.specs.Prelude.{◌≡◌, ◌+◌, ◌<◌, ◌≤◌, ℕ, true, false, length, vec_capacity, IfNone, IfSome};
ghost use Rattle.std.specs.Bool.{OnTrue, OnFalse};
ghost use Rattle.mv_pool.specs.Walks.{mark};
ghost use Rattle.mv_diagram.specs.Choices.{AreChoices, AreMissed, IsMarkedAt, MarksAt, Meets, Misses, TestsFirst};
ghost use Rattle.mv_diagram.specs.Roots.{IsPlaceBelow};
ghost use Rattle.mv_diagram.specs.Sets.{holds, has_diagram};
ghost use Rattle.mv_diagram.specs.Sound.{IsReduced, first, order};

use crate::node::ONE;
use crate::table::{Table, node};
use crate::{Dd, Node};
use mv_base::{Value, ValueSet};

/// So many marks, of which none is set, within the room that is there.
pub fn unmark(marks: &mut Vec<bool>, count: usize)
    requires { count ≤ vec_capacity marks.old }
    ensures long { length marks.new.items ≡ count }
    ensures none { (n : ℕ) → mark marks.new.items n ≡ false }
    ensures room { vec_capacity marks.old ≤ vec_capacity marks.new }
{
    marks.clear();
    marks.resize(count, false).unwrap();
}

/// Whether the place of a diagram is marked.
fn is_marked(marks: &[bool], d: Dd) -> bool
    requires { IsPlaceBelow (length marks.now) d }
    ensures { OnTrue result (IsMarkedAt marks.now d.0) }
{
    match d.place() {
        Some(id) => marks[id.0 as usize],
        None => false,
    }
}

/// Marks the place of a diagram.
fn mark_at(marks: &mut [bool], d: Dd)
    requires { IsPlaceBelow (length marks.old) d }
    ensures { MarksAt marks.old marks.new d.0 }
{
    if let Some(id) = d.place() {
        marks[id.0 as usize] = true;
    }
}

/// The first node of a diagram, if it tests the variable.
fn tested(table: &Table, d: Dd, var: u32) -> Option<Node>
    requires sound { IsReduced table.now.counts.items table.now.pool.places }
    requires held { has_diagram table.now.pool.places d.0 ≡ true }
    requires variable { var < length table.now.counts.items }
    requires later { order var 0 ≤ first table.now.counts.items table.now.pool.places d.0 }
    ensures some { IfSome result (TestsFirst table.now.pool.places d.0 var) }
    ensures none { IfNone result (order (var + 1) 0
        ≤ first table.now.counts.items table.now.pool.places d.0) }
{
    match node(table, d) {
        Some(first) => {
            if first.test.var == var {
                Some(first)
            } else {
                None
            }
        }
        None => None,
    }
}

/// Whether a point of the diagram has a value of each set. The diagrams that have none are marked, and not looked at
/// again. The recursion is as deep as there are variables.
pub fn meets_in(table: &Table, marks: &mut [bool], sets: &[ValueSet], d: Dd) -> bool
    requires sound { IsReduced table.now.counts.items table.now.pool.places }
    requires held { has_diagram table.now.pool.places d.0 ≡ true }
    requires choices { AreChoices table.now.counts.items sets.now }
    requires missed { AreMissed table.now.counts.items table.now.pool.places sets.now marks.old }
    ensures missed { AreMissed table.now.counts.items table.now.pool.places sets.now marks.new }
    ensures some { OnTrue result (Meets table.now.counts.items sets.now
        (λ p. holds table.now.counts.items table.now.pool.places d.0 p)) }
    ensures none { OnFalse result (Misses table.now.counts.items sets.now
        (λ p. holds table.now.counts.items table.now.pool.places d.0 p)) }
{
    let Some(front) = node(table, d) else {
        return d == ONE;
    };
    if is_marked(marks, d) {
        return false;
    }
    let mut left = sets[front.test.var as usize];
    let mut rest = d;
    while let Some(next) = tested(table, rest, front.test.var) {
        if left.has(Value(next.test.value)) {
            if meets_in(table, marks, sets, next.yes) {
                return true;
            }
            left = left.minus(ValueSet::one(Value(next.test.value)));
            rest = next.no;
        } else {
            rest = next.no;
        }
    }
    let Some(_least) = left.least() else {
        mark_at(marks, d);
        return false;
    };
    if meets_in(table, marks, sets, rest) {
        return true;
    }
    mark_at(marks, d);
    false
}
