ghost use Rattle.std.specs.Prelude.{◌≡◌, ◌+◌, ◌<◌, ◌≤◌, ◌&&◌, ℕ, true, length, IfOk, IfErr};
ghost use Rattle.mv_base.specs.Set.{has as has_value};
ghost use Rattle.mv_diagram.specs.Sets.{Point, InRange, holds, has_diagram};
ghost use Rattle.mv_diagram.specs.Sound.{IsReduced, first, order};
ghost use Rattle.mv_diagram.specs.Parts.{AddsParts};
ghost use Rattle.mv_diagram.specs.Works.{AddsNodes, IsFull, IsLacking};

use crate::node::{ONE, ZERO};
use crate::table::{Table, make};
use crate::{Dd, Nodes, Test};
use mv_base::{Value, ValueSet};

/// A diagram, or the empty one.
fn only_if(table: &Table, inside: bool, d: Dd) -> Dd
    requires sound { IsReduced table.now.counts.items table.now.pool.places }
    requires held { has_diagram table.now.pool.places d.0 ≡ true }
    ensures held { has_diagram table.now.pool.places result.0 ≡ true }
    ensures later { first table.now.counts.items table.now.pool.places d.0
        ≤ first table.now.counts.items table.now.pool.places result.0 }
    ensures set { (p : Point) → holds table.now.counts.items table.now.pool.places result.0 p
        ≡ (inside && holds table.now.counts.items table.now.pool.places d.0 p) }
{
    let _ = &table.counts;
    if inside { d } else { ZERO }
}

/// The diagram of the points of another whose value of an earlier variable is in the set, from its last test of this
/// variable to its first.
pub fn literal_in(table: &mut Table, var: u32, set: ValueSet, d: Dd) -> Result<Dd, Nodes>
    requires sound { IsReduced table.old.counts.items table.old.pool.places }
    requires variable { var < length table.old.counts.items }
    requires held { has_diagram table.old.pool.places d.0 ≡ true }
    requires behind { order (var + 1) 0 ≤ first table.old.counts.items table.old.pool.places d.0 }
    ensures adds { AddsNodes table.old table.new }
    ensures held { IfOk result (λ r. has_diagram table.new.pool.places r.0 ≡ true) }
    ensures later { IfOk result
        (λ r. order var 0 ≤ first table.new.counts.items table.new.pool.places r.0) }
    ensures set { IfOk result (λ r. (p : Point) → InRange table.new.counts.items p
        → holds table.new.counts.items table.new.pool.places r.0 p
        ≡ (has_value set (p var) && holds table.old.counts.items table.old.pool.places d.0 p)) }
    ensures added { AddsParts table.new.counts.items table.old.pool.places table.new.pool.places
        (λ p. has_value set (p var) && holds table.old.counts.items table.old.pool.places d.0 p) }
    ensures full { IfErr result (IsFull table.new.pool) }
    ensures lacking { IfErr result
        (λ e. IsLacking table.new.counts.items table.new.pool.places
        (λ p. has_value set (p var) && holds table.old.counts.items table.old.pool.places d.0 p)) }
{
    let mut value = table.counts[var as usize] - 1;
    let mut rest = only_if(table, set.has(Value(value)), d);
    while value > 0 {
        value -= 1;
        let yes = only_if(table, set.has(Value(value)), d);
        match make(table, Test { var, value }, yes, rest) {
            Ok(r) => rest = r,
            Err(stop) => return Err(stop),
        }
    }
    Ok(rest)
}

/// The diagram of the points whose value of the variable is in the set.
pub fn literal_of(table: &mut Table, var: u32, set: ValueSet) -> Result<Dd, Nodes>
    requires sound { IsReduced table.old.counts.items table.old.pool.places }
    requires variable { var < length table.old.counts.items }
    ensures adds { AddsNodes table.old table.new }
    ensures held { IfOk result (λ d. has_diagram table.new.pool.places d.0 ≡ true) }
    ensures set { IfOk result (λ d. (p : Point) → InRange table.new.counts.items p
        → holds table.new.counts.items table.new.pool.places d.0 p ≡ has_value set (p var)) }
    ensures added { AddsParts table.new.counts.items table.old.pool.places table.new.pool.places
        (λ p. has_value set (p var)) }
    ensures full { IfErr result (IsFull table.new.pool) }
    ensures lacking { IfErr result
        (λ e. IsLacking table.new.counts.items table.new.pool.places (λ p. has_value set (p var))) }
{
    literal_in(table, var, set, ONE)
}
