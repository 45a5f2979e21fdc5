ghost use Rattle.std.specs.Prelude.{◌≡◌, ◌<◌, ◌≤◌, ◌&&◌, ℕ, true, [], ◌∷◌, length, vec_capacity, IfErr, OnOk, OnErr};
ghost use Rattle.mv_diagram.specs.Sets.{Point};
ghost use Rattle.mv_diagram.specs.Diagrams.{HasNoRoom};
ghost use Rattle.mv_diagram.specs.Found.{AreTested};
ghost use Rattle.mv_diagram.specs.Quantified.{Spreads};
ghost use Rattle.mv_factors.specs.Families.{Keeps, but, diagram_at, everywhere, set_at};
ghost use Rattle.mv_factors.specs.Seen.{HasRows, IsSeen, KeepsWork, Sees, may};

use crate::Factors;
use mv_diagram::Nodes;

/// What is known of the sets of a list while variables are eliminated.
#[derive(Drop)]
pub struct Work {
    /// For each place a mark for each variable on which the set there may depend.
    pub rows: Vec<Vec<bool>>,
    /// The number of nodes of the set at each place.
    pub sizes: Vec<u32>,
    /// For each variable the nodes of all sets that may depend on it.
    pub costs: Vec<u64>,
    /// Marks the variables that are still to be eliminated.
    pub left: Vec<bool>,
}

/// Whether the set at the place may depend on the variable.
pub fn may_depend(rows: &[Vec<bool>], place: usize, var: u32) -> bool
    requires { place < length rows.now }
    ensures { result ≡ may rows.now place var }
{
    match rows[place].as_slice().get(var as usize) {
        Some(mark) => *mark,
        None => false,
    }
}

/// Adds the number of nodes to the costs of the marked variables.
fn add_costs(costs: &mut [u64], row: &[bool], size: u32) {
    for (var, mark) in row.iter().enumerate() {
        if *mark && let Some(cost) = costs.get_mut(var) {
            *cost = cost.saturating_add(u64::from(size));
        }
    }
}

/// Takes the number of nodes from the costs of the marked variables.
fn take_costs(costs: &mut [u64], row: &[bool], size: u32) {
    for (var, mark) in row.iter().enumerate() {
        if *mark && let Some(cost) = costs.get_mut(var) {
            *cost = cost.saturating_sub(u64::from(size));
        }
    }
}

/// Marks the variables on which the set at the place may depend, within the room that is there.
fn mark_into(row: &mut Vec<bool>, factors: &mut Factors, place: usize)
    requires place { place < length factors.old.list }
    requires room { length factors.old.contents.counts ≤ vec_capacity row.old }
    ensures same { factors.new ≡ factors.old }
    ensures tested { AreTested factors.old.contents (diagram_at factors.old place) row.new.items }
    ensures room { vec_capacity row.old ≤ vec_capacity row.new }
{
    row.clear();
    row.resize(factors.vars(), false).unwrap();
    factors.variables(place, row.as_mut_slice());
}

/// Marks in the row of the place the variables on which its set may depend.
fn mark_row(rows: &mut Vec<Vec<bool>>, factors: &mut Factors, place: usize)
    requires place { place < length factors.old.list }
    requires rows { HasRows rows.old.items (length factors.old.list)
        (length factors.old.contents.counts) }
    ensures same { factors.new ≡ factors.old }
    ensures seen { IsSeen factors.old place rows.old.items rows.new.items }
{
    mark_into(&mut rows[place], factors, place);
}

/// Keeps the number of nodes of the set at a place, and takes the old one from the costs.
fn keep_size(work: &mut Work, place: usize, size: u32)
    requires { place < length work.old.rows.items }
    ensures rows { work.new.rows ≡ work.old.rows }
    ensures work { KeepsWork work.old work.new }
{
    if place >= work.sizes.len() {
        return;
    }
    let known = work.sizes[place];
    take_costs(
        work.costs.as_mut_slice(),
        work.rows[place].as_slice(),
        known,
    );
    work.sizes[place] = size;
}

/// Looks at the set of a place. The time grows with the places of the pool.
pub fn look(work: &mut Work, factors: &mut Factors, place: usize)
    requires place { place < length factors.old.list }
    requires rows { HasRows work.old.rows.items (length factors.old.list)
        (length factors.old.contents.counts) }
    ensures same { factors.new ≡ factors.old }
    ensures seen { IsSeen factors.old place work.old.rows.items work.new.rows.items }
    ensures work { KeepsWork work.old work.new }
{
    let size = factors.size(place);
    keep_size(work, place, size);
    mark_row(&mut work.rows, factors, place);
    add_costs(work.costs.as_mut_slice(), work.rows[place].as_slice(), size);
}

/// Leaves a variable out of the meet of the sets at two places, and puts the result at the first.
pub fn leave_out(
    work: &mut Work,
    factors: &mut Factors,
    place: usize,
    other: usize,
    var: u32,
) -> Result<(), Nodes>
    requires place { place < length factors.old.list }
    requires other { other < length factors.old.list }
    requires var { var < length factors.old.contents.counts }
    requires rows { HasRows work.old.rows.items (length factors.old.list)
        (length factors.old.contents.counts) }
    ensures sees { Sees factors.old factors.new work.old.rows.items work.new.rows.items }
    ensures keeps { Keeps factors.old factors.new (but place) }
    ensures set { OnOk result (Spreads factors.new.contents (var ∷ []) true
        (λ q. set_at factors.old place q && set_at factors.old other q)
        (diagram_at factors.new place)) }
    ensures same { OnErr result (Keeps factors.old factors.new everywhere) }
    ensures full { IfErr result (HasNoRoom factors.new.contents) }
    ensures work { KeepsWork work.old work.new }
{
    match factors.leave_out(place, other, &[var]) {
        Ok(()) => {
            look(work, factors, place);
            Ok(())
        }
        Err(stop) => Err(stop),
    }
}

/// Puts the set of all points at a place.
pub fn fill(work: &mut Work, factors: &mut Factors, place: usize)
    requires place { place < length factors.old.list }
    requires rows { HasRows work.old.rows.items (length factors.old.list)
        (length factors.old.contents.counts) }
    ensures sees { Sees factors.old factors.new work.old.rows.items work.new.rows.items }
    ensures keeps { Keeps factors.old factors.new (but place) }
    ensures set { (p : Point) → set_at factors.new place p ≡ true }
    ensures work { KeepsWork work.old work.new }
{
    factors.fill(place);
    look(work, factors, place);
}

/// Leaves in the set of a place the points that the set of another place has too.
pub fn meet(work: &mut Work, factors: &mut Factors, place: usize, other: usize) -> Result<(), Nodes>
    requires place { place < length factors.old.list }
    requires other { other < length factors.old.list }
    requires rows { HasRows work.old.rows.items (length factors.old.list)
        (length factors.old.contents.counts) }
    ensures sees { Sees factors.old factors.new work.old.rows.items work.new.rows.items }
    ensures keeps { Keeps factors.old factors.new (but place) }
    ensures set { OnOk result ((p : Point) → set_at factors.new place p
        ≡ (set_at factors.old place p && set_at factors.old other p)) }
    ensures same { OnErr result (Keeps factors.old factors.new everywhere) }
    ensures full { IfErr result (HasNoRoom factors.new.contents) }
    ensures work { KeepsWork work.old work.new }
{
    match factors.meet(place, other) {
        Ok(()) => {
            look(work, factors, place);
            Ok(())
        }
        Err(stop) => Err(stop),
    }
}
