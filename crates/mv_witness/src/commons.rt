ghost use Rattle.std.specs.Prelude.{◌≡◌, ◌+◌, ◌*◌, ◌^◌, ◌<◌, ◌≤◌, ℕ, true, length, slice_index, All, IfOk, IfErr, MatchBool, OnOk};
ghost use Rattle.mv_base.specs.declared.limits.TheConstants.{MAX_VALUES};
ghost use Rattle.mv_diagram.specs.Cubes.{AscendingVars};
ghost use Rattle.mv_diagram.specs.Diagrams.{HasNoRoom, IsPoint, point_of};
ghost use Rattle.mv_diagram.specs.Sets.{Point};
ghost use Rattle.mv_diagram.specs.Sound.{AreCounts};
ghost use Rattle.mv_diagram.specs.declared.cube.Literal.{Literal};
ghost use Rattle.mv_factors.specs.declared.inner.Inner.{Inner};
ghost use Rattle.mv_factors.specs.Families.{Keeps, before, set_at};
ghost use Rattle.mv_factors.specs.Leaving.{Eliminates, IsInAll, is_inner};
ghost use Rattle.mv_witness.specs.Commons.{CopiesWith, HasCommon};
ghost use Rattle.mv_witness.specs.Ready.{IsReady};

use crate::copies::copy_sets;
use mv_base::{Memory, Value};
use mv_diagram::{Literal, Nodes};
use mv_factors::{Elimination, Factors, Inner};
use std::alloc::Global;
use std::marker::Model;

/// What a search for common points of sets needs beside their list.
#[derive(Drop)]
pub struct Commons {
    elimination: Elimination,
    /// The numbers of values of the variables.
    counts: Vec<u16>,
    /// All variables.
    all: Vec<Inner>,
    /// The point with the value 0 of each.
    zeros: Vec<Value>,
}

impl Model for Commons {
    ghost use Rattle.mv_witness.specs.Ready.{Ready};

    ghost Value = { Ready };

    ghost use Rattle.mv_witness.specs.Ready.{IsReady};

    ghost view = { λ c. record { counts = c.counts.items; places = c.elimination.places } };

    ghost invariant = { λ c. IsReady c.counts.items c.elimination c.all.items c.zeros.items };
}

/// All variables, of none of which a set is known to give the value.
fn all_variables(alloc: Global, count: u32) -> Result<Vec<Inner>, Memory>
    ensures within { IfOk result (λ all. All (λ (i : Inner). i.var < count) all.items) }
    ensures every { IfOk result (λ all. (v : ℕ) → v < count → is_inner all.items v ≡ true) }
{
    let mut all = Vec::new(alloc);
    for var in 0..count {
        all.push(Inner { var, given: None })?;
    }
    Ok(all)
}

/// The point with the value 0 of each variable.
fn zeros_for(alloc: Global, counts: &[u16]) -> Result<Vec<Value>, Memory>
    requires { AreCounts counts.now }
    ensures { IfOk result (λ zeros. IsPoint counts.now zeros.items) }
{
    Ok(vec![in alloc; Value(0); counts.len()]?)
}

/// Whether the point is in each set from a place on.
fn is_in_all(factors: &Factors, from: usize, point: &[Value]) -> bool
    requires { IsPoint factors.now.contents.counts point.now }
    ensures { MatchBool result (IsInAll factors.now from (point_of point.now))
        (IsInAll factors.now from (point_of point.now) → ⊥) }
{
    for place in from..factors.len() {
        if !factors.test(place, point) {
            return false;
        }
    }
    true
}

/// Puts copies of the sets from a place on and the set of a cube behind the list.
fn copy_with(factors: &mut Factors, from: usize, literals: &[Literal]) -> Result<(), Nodes>
    requires from { from ≤ length factors.old.list }
    requires room { 2 * length factors.old.list + 1 ≤ factors.old.room }
    requires first { (p : Point) → set_at factors.old 0 p ≡ true }
    requires vars { All (λ (l : Literal). l.var < length factors.old.contents.counts) literals.now }
    requires ascends { AscendingVars literals.now }
    ensures keeps { Keeps factors.old factors.new (before (length factors.old.list)) }
    ensures behind { length factors.old.list ≤ length factors.new.list }
    ensures few { length factors.new.list ≤ 2 * length factors.old.list + 1 }
    ensures copies { OnOk result (CopiesWith factors.old factors.new from literals.now) }
    ensures full { IfErr result (HasNoRoom factors.new.contents) }
{
    let count = factors.len();
    copy_sets(factors, from, count);
    factors.add_cube(literals)
}

/// Whether the sets from a place on have a common point with a value in the set of each literal. At Nodes there may be more
/// sets behind the list.
fn have_common(
    factors: &mut Factors,
    elimination: &mut Elimination,
    all: &[Inner],
    zeros: &[Value],
    from: usize,
    literals: &[Literal],
) -> Result<bool, Nodes>
    requires ready { IsReady factors.old.contents.counts elimination.old all.now zeros.now }
    requires places { 2 * length factors.old.list + 1 ≤ elimination.old.places }
    requires from { from ≤ length factors.old.list }
    requires room { 2 * length factors.old.list + 1 ≤ factors.old.room }
    requires first { (p : Point) → set_at factors.old 0 p ≡ true }
    requires vars { All (λ (l : Literal). l.var < length factors.old.contents.counts) literals.now }
    requires ascends { AscendingVars literals.now }
    ensures keeps { Keeps factors.old factors.new (before (length factors.old.list)) }
    ensures long { OnOk result (length factors.new.list ≡ length factors.old.list) }
    ensures same { elimination.new ≡ elimination.old }
    ensures found { IfOk result (λ found. MatchBool found
        (HasCommon factors.old from literals.now) (HasCommon factors.old from literals.now → ⊥)) }
    ensures full { IfErr result (HasNoRoom factors.new.contents) }
{
    let count = factors.len();
    match copy_with(factors, from, literals) {
        Ok(()) => {}
        Err(stop) => return Err(stop),
    }
    match elimination.eliminate(factors, count, all) {
        Ok(()) => {}
        Err(stop) => return Err(stop),
    }
    let found = is_in_all(factors, count, zeros);
    factors.cut(count);
    Ok(found)
}

impl Commons {
    /// What is needed for sets over these variables, as many as the list has room for.
    pub fn new(alloc: Global, factors: &Factors, counts: &[u16]) -> Result<Commons, Memory>
        requires counts { factors.now.contents.counts ≡ counts.now }
        requires values { AreCounts counts.now }
        requires few { length counts.now < 2 ^ 32 }
        ensures counts { IfOk result (λ c. c.counts ≡ counts.now) }
        ensures places { IfOk result (λ c. c.places ≡ factors.now.room) }
    {
        let mut elimination = Elimination::new(alloc);
        elimination.reserve(alloc, factors)?;
        Ok(Commons {
            elimination,
            counts: Vec::from_slice(alloc, counts)?,
            all: all_variables(alloc, counts.len() as u32)?,
            zeros: zeros_for(alloc, counts)?,
        })
    }

    /// There are fewer than 2^32 variables.
    pub fn few(&self)
        ensures { length self.now.counts < 2 ^ 32 }
    {
        let _ = &self.counts;
    }

    /// The greatest value of a variable.
    pub fn last_value(&self, var: u32) -> u16
        requires { var < length self.now.counts }
        ensures last { result + 1 ≡ slice_index self.now.counts var }
        ensures few { result < MAX_VALUES }
    {
        self.counts[var as usize] - 1
    }

    /// Eliminates variables from the meet of the sets from a place on.
    pub fn eliminate(
        &mut self,
        factors: &mut Factors,
        from: usize,
        inner: &[Inner],
    ) -> Result<(), Nodes>
        requires counts { factors.old.contents.counts ≡ self.old.counts }
        requires places { length factors.old.list ≤ self.old.places }
        requires inner { All
            (λ (i : Inner). i.var < length factors.old.contents.counts) inner.now }
        ensures same { self.new ≡ self.old }
        ensures keeps { Keeps factors.old factors.new (before from) }
        ensures long { length factors.new.list ≡ length factors.old.list }
        ensures ok { OnOk result (Eliminates factors.old factors.new from (is_inner inner.now)) }
        ensures full { IfErr result (HasNoRoom factors.new.contents) }
    {
        self.elimination.eliminate(factors, from, inner)
    }

    /// Whether the sets from a place on have a common point with a value in the set of each literal. Place 0 has the set of
    /// all points. There is room for the sets twice, and one more. At Nodes there may be more sets behind the list.
    pub fn have_common(
        &mut self,
        factors: &mut Factors,
        from: usize,
        literals: &[Literal],
    ) -> Result<bool, Nodes>
        requires counts { factors.old.contents.counts ≡ self.old.counts }
        requires places { 2 * length factors.old.list + 1 ≤ self.old.places }
        requires from { from ≤ length factors.old.list }
        requires room { 2 * length factors.old.list + 1 ≤ factors.old.room }
        requires first { (p : Point) → set_at factors.old 0 p ≡ true }
        requires vars { All
            (λ (l : Literal). l.var < length factors.old.contents.counts) literals.now }
        requires ascends { AscendingVars literals.now }
        ensures keeps { Keeps factors.old factors.new (before (length factors.old.list)) }
        ensures long { OnOk result (length factors.new.list ≡ length factors.old.list) }
        ensures same { self.new ≡ self.old }
        ensures found { IfOk result (λ found. MatchBool found
            (HasCommon factors.old from literals.now)
            (HasCommon factors.old from literals.now → ⊥)) }
        ensures full { IfErr result (HasNoRoom factors.new.contents) }
    {
        let all = self.all.as_slice();
        let zeros = self.zeros.as_slice();
        have_common(factors, &mut self.elimination, all, zeros, from, literals)
    }
}
