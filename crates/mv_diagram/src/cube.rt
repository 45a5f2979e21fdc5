ghost use Rattle.std.specs.Prelude.{◌≡◌, ◌+◌, ◌<◌, ◌≤◌, ℕ, true, false, length, drop, slice_index_or, All, IfOk, IfErr};
ghost use Rattle.std.specs.Bool.{OnTrue, OnFalse};
ghost use Rattle.mv_base.specs.Set.{has as has_value};
ghost use Rattle.mv_diagram.specs.Sets.{Point, InRange, holds, has_diagram};
ghost use Rattle.mv_diagram.specs.Sound.{IsReduced, first, order};
ghost use Rattle.mv_diagram.specs.Parts.{AddsParts};
ghost use Rattle.mv_diagram.specs.Works.{AddsNodes, IsFull, IsLacking};
ghost use Rattle.mv_diagram.specs.Cubes.{AscendingVars, HasSome, HasNone, AreSome, IsBefore, in_cube};
ghost use Rattle.mv_diagram.specs.declared.cube.Literal.{Literal};

use crate::literal::literal_in;
use crate::node::{ONE, ZERO};
use crate::table::Table;
use crate::{Dd, Nodes};
use mv_base::ValueSet;

/// Some of the values of a variable.
#[derive(Clone, Copy, Debug)]
pub struct Literal {
    pub var: u32,
    pub set: ValueSet,
}

/// Whether the set has a value of the variable.
fn has_some(table: &Table, literal: &Literal) -> bool
    requires { literal.now.var < length table.now.counts.items }
    ensures some { OnTrue result
        (HasSome table.now.counts.items literal.now.var literal.now.set) }
    ensures none { OnFalse result
        (HasNone table.now.counts.items literal.now.var literal.now.set) }
{
    match literal.set.least() {
        Some(least) => least.0 < table.counts[literal.var as usize],
        None => false,
    }
}

/// Whether each set has a value of its variable.
fn all_some(table: &Table, literals: &[Literal]) -> bool
    requires { All (λ (l : Literal). l.var < length table.now.counts.items) literals.now }
    ensures all { OnTrue result
        (AreSome table.now.counts.items literals.now (length literals.now)) }
    ensures none { OnFalse result ((p : Point) → InRange table.now.counts.items p
        → in_cube literals.now p ≡ false) }
{
    for literal in literals {
        if !has_some(table, literal) {
            return false;
        }
    }
    true
}

/// The diagram of the points that have a value in the set of each literal from one on. The recursion is as deep as there
/// are literals.
fn cube_from(table: &mut Table, literals: &[Literal], at: usize) -> Result<Dd, Nodes>
    requires sound { IsReduced table.old.counts.items table.old.pool.places }
    requires vars { All (λ (l : Literal). l.var < length table.old.counts.items) literals.now }
    requires ascends { AscendingVars literals.now }
    requires some { AreSome table.old.counts.items literals.now (length literals.now) }
    requires inside { at ≤ length literals.now }
    ensures adds { AddsNodes table.old table.new }
    ensures held { IfOk result (λ d. has_diagram table.new.pool.places d.0 ≡ true) }
    ensures later { IfOk result
        (λ d. (v : ℕ) → v < length table.new.counts.items → IsBefore v literals.now at
        → order (v + 1) 0 ≤ first table.new.counts.items table.new.pool.places d.0) }
    ensures set { IfOk result (λ d. (p : Point) → InRange table.new.counts.items p
        → holds table.new.counts.items table.new.pool.places d.0 p
        ≡ in_cube (drop at literals.now) p) }
    ensures added { AddsParts table.new.counts.items table.old.pool.places table.new.pool.places
        (λ p. in_cube (drop at literals.now) p) }
    ensures full { IfErr result (IsFull table.new.pool) }
    ensures lacking { IfErr result
        (λ e. IsLacking table.new.counts.items table.new.pool.places
        (λ p. in_cube (drop at literals.now) p)) }
{
    if at == literals.len() {
        return Ok(ONE);
    }
    let literal = literals[at];
    let rest = match cube_from(table, literals, at + 1) {
        Ok(rest) => rest,
        Err(stop) => return Err(stop),
    };
    literal_in(table, literal.var, literal.set, rest)
}

/// The diagram of the points that have a value in the set of each literal.
pub fn cube_of(table: &mut Table, literals: &[Literal]) -> Result<Dd, Nodes>
    requires sound { IsReduced table.old.counts.items table.old.pool.places }
    requires vars { All (λ (l : Literal). l.var < length table.old.counts.items) literals.now }
    requires ascends { AscendingVars literals.now }
    ensures adds { AddsNodes table.old table.new }
    ensures held { IfOk result (λ d. has_diagram table.new.pool.places d.0 ≡ true) }
    ensures set { IfOk result (λ d. (p : Point) → InRange table.new.counts.items p
        → holds table.new.counts.items table.new.pool.places d.0 p ≡ in_cube literals.now p) }
    ensures added { AddsParts table.new.counts.items table.old.pool.places table.new.pool.places
        (λ p. in_cube literals.now p) }
    ensures full { IfErr result (IsFull table.new.pool) }
    ensures lacking { IfErr result
        (λ e. IsLacking table.new.counts.items table.new.pool.places
        (λ p. in_cube literals.now p)) }
{
    if all_some(table, literals) {
        cube_from(table, literals, 0)
    } else {
        Ok(ZERO)
    }
}
