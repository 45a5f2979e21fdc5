ghost use Rattle.std.specs.Prelude.{◌≡◌, ◌<◌, ◌≤◌, ◌&&◌, true, [], ◌∷◌, length, IfOk};
ghost use Rattle.std.specs.Bool.{OnTrue};
ghost use Rattle.mv_base.specs.Set.{has as has_value};
ghost use Rattle.mv_diagram.specs.Diagrams.{IsHeld, Keeps, has};
ghost use Rattle.mv_diagram.specs.Quantified.{Spreads};
ghost use Rattle.mv_factors.specs.Functions.{AreBelow, IsApart, IsFunction, IsTotal};

use mv_base::{MAX_VALUES, Value, ValueSet};
use mv_diagram::{Dd, Diagrams, Nodes};

/// Whether each point agrees, outside the variable, with one of the set.
fn is_total(diagrams: &mut Diagrams, set: Dd, var: u32) -> Result<bool, Nodes>
    requires held { IsHeld diagrams.old set }
    requires var { var < length diagrams.old.counts }
    ensures keeps { Keeps diagrams.old diagrams.new }
    ensures total { IfOk result (λ is. OnTrue is
        (IsTotal diagrams.old.counts (λ p. has diagrams.old set p) var)) }
{
    let some = match diagrams.exists(set, &[var]) {
        Ok(some) => some,
        Err(stop) => return Err(stop),
    };
    Ok(diagrams.same(some, diagrams.one()))
}

/// Whether all values of the variable are below this one.
fn are_below(diagrams: &mut Diagrams, var: u32, value: u16) -> Result<bool, Nodes>
    requires var { var < length diagrams.old.counts }
    requires value { value ≤ MAX_VALUES }
    ensures keeps { Keeps diagrams.old diagrams.new }
    ensures below { IfOk result (λ is. OnTrue is (AreBelow diagrams.old.counts var value)) }
{
    let low = match diagrams.literal(var, ValueSet::full(value)) {
        Ok(low) => low,
        Err(stop) => return Err(stop),
    };
    Ok(diagrams.same(low, diagrams.one()))
}

/// The points that agree, outside the variable, with one of the set that has one of these values.
fn with_values(diagrams: &mut Diagrams, set: Dd, var: u32, values: ValueSet) -> Result<Dd, Nodes>
    requires held { IsHeld diagrams.old set }
    requires var { var < length diagrams.old.counts }
    ensures keeps { Keeps diagrams.old diagrams.new }
    ensures held { IfOk result (IsHeld diagrams.new) }
    ensures set { IfOk result (λ d. Spreads diagrams.new (var ∷ []) true
        (λ q. has diagrams.old set q && has_value values (q var)) d) }
{
    let chosen = match diagrams.literal(var, values) {
        Ok(chosen) => chosen,
        Err(stop) => return Err(stop),
    };
    diagrams.and_exists(set, chosen, &[var])
}

/// Whether no two points of the set agree outside the variable, of which one has this value and one a smaller one.
fn is_apart(diagrams: &mut Diagrams, set: Dd, var: u32, value: u16) -> Result<bool, Nodes>
    requires held { IsHeld diagrams.old set }
    requires var { var < length diagrams.old.counts }
    requires value { value < MAX_VALUES }
    ensures keeps { Keeps diagrams.old diagrams.new }
    ensures apart { IfOk result (λ is. OnTrue is
        (IsApart diagrams.old.counts (λ p. has diagrams.old set p) var value)) }
{
    let low = match with_values(diagrams, set, var, ValueSet::full(value)) {
        Ok(low) => low,
        Err(stop) => return Err(stop),
    };
    let this = match with_values(diagrams, set, var, ValueSet::one(Value(value))) {
        Ok(this) => this,
        Err(stop) => return Err(stop),
    };
    let both = match diagrams.and(low, this) {
        Ok(both) => both,
        Err(stop) => return Err(stop),
    };
    Ok(diagrams.same(both, diagrams.zero()))
}

/// Whether the set gives the variable one value, at each point of the others. It takes three operations for each value of
/// the variable, and two more.
pub fn is_function(diagrams: &mut Diagrams, set: Dd, var: u32) -> Result<bool, Nodes>
    requires held { IsHeld diagrams.old set }
    requires var { var < length diagrams.old.counts }
    ensures keeps { Keeps diagrams.old diagrams.new }
    ensures function { IfOk result (λ is. OnTrue is
        (IsFunction diagrams.old.counts (λ p. has diagrams.old set p) var)) }
{
    match is_total(diagrams, set, var) {
        Ok(true) => {}
        Ok(false) => return Ok(false),
        Err(stop) => return Err(stop),
    }
    for value in 1..MAX_VALUES {
        match are_below(diagrams, var, value) {
            Ok(true) => return Ok(true),
            Ok(false) => {}
            Err(stop) => return Err(stop),
        }
        match is_apart(diagrams, set, var, value) {
            Ok(true) => {}
            Ok(false) => return Ok(false),
            Err(stop) => return Err(stop),
        }
    }
    are_below(diagrams, var, MAX_VALUES)
}
