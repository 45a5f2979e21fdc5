ghost use Rattle.std.specs.Prelude.{◌≡◌, ◌+◌, ◌-◌, ◌^◌, ◌<◌, ◌≤◌, ◌&&◌, ◌||◌, ◌↔◌, ℕ, [], true, false, not, length, take, min, vec_capacity, IsTrue, IfOk, IfErr, OnOk, OnErr, All};
ghost use Rattle.std.specs.Bool.{OnTrue, OnFalse};
ghost use Rattle.mv_base.specs.Set.{has as has_value};
ghost use Rattle.mv_diagram.specs.Sets.{Point, InRange, SameSet};
ghost use Rattle.mv_diagram.specs.Sound.{AreCounts};
ghost use Rattle.mv_diagram.specs.Quantified.{AddsAnswers, AddsMeets, AddsUnions, Exists, ExistsBoth, Forall, Spreads};
ghost use Rattle.mv_diagram.specs.Results.{result_of};
ghost use Rattle.mv_diagram.specs.declared.cube.Literal.{Literal};
ghost use Rattle.mv_diagram.specs.Cubes.{AscendingVars, in_cube};
ghost use Rattle.mv_diagram.specs.Choices.{AreChoices, Meets, Misses};
ghost use Rattle.mv_diagram.specs.Found.{AreTested, IsSize};
ghost use Rattle.mv_diagram.specs.Diagrams.{AddsRestrictions, HasNoRoom, IsHeld, IsPoint, Keeps, Lacks, Loses, Reaches, has, point_of};

use crate::apply::apply;
use crate::cube::cube_of;
use crate::found::{find, mark_tested};
use crate::literal::literal_of;
use crate::look::{contains, pick_in};
use crate::meet::{meets_in, unmark};
use crate::memo::{Memo, Operation};
use crate::node::{ONE, ZERO};
use crate::quantify::{choose, quantify};
use crate::roots::gather;
use crate::table::Table;
use crate::{Dd, Literal, Nodes};
use lru::LruCache;
use mv_base::{Memory, Value, ValueSet};
use mv_pool::{Id, Mark, Pool};
use std::alloc::Global;
use std::marker::Model;
use std::num::NonZeroUsize;

/// Sets of points, in shared nodes. All room for nodes is reserved at the start.
#[derive(Drop)]
pub struct Diagrams {
    table: Table,
    /// The results of operations. It is emptied before numbers are given back.
    memo: Memo,
    reclaims: u64,
    /// Room for the marks of the places of roots.
    marks: Vec<bool>,
    /// Room for these places.
    ids: Vec<Id>,
    /// The results of one call of `exists` or `forall`.
    done: Memo,
    /// Room for the marks of its variables.
    chosen: Vec<bool>,
    /// Room for the places of the nodes of a diagram.
    found: Vec<u32>,
}

impl Model for Diagrams {
    ghost use Rattle.mv_diagram.specs.Diagrams.{Contents};

    ghost Value = { Contents };

    ghost use Rattle.std.specs.Prelude.{vec_capacity};
    ghost use Rattle.mv_diagram.specs.Whole.{IsWhole};

    ghost view = { λ d. record { counts = d.table.counts.items; nodes = d.table.pool.places; cap = d.table.pool.cap; reclaims = d.reclaims } };

    ghost invariant = { λ d. IsWhole d.table.counts.items d.table.pool.places d.memo.entries d.table.pool.cap d.reclaims (vec_capacity d.marks)
        (vec_capacity d.ids) (vec_capacity d.chosen) (vec_capacity d.found) };
}

impl Diagrams {
    /// The diagrams of variables with these numbers of values, with room for `cap` nodes. No other call but `restart`
    /// answers want of memory.
    pub fn with_room(alloc: Global, counts: &[u16], cap: u32) -> Result<Diagrams, Memory>
        requires { AreCounts counts.now }
        ensures { IfOk result
            (λ d. d ≡ record { counts = counts.now; nodes = []; cap = cap; reclaims = 0 }) }
    {
        let most = NonZeroUsize::new(cap as usize).unwrap_or(NonZeroUsize::MIN);
        Ok(Diagrams {
            table: Table {
                counts: Vec::from_slice(alloc, counts)?,
                pool: Pool::with_room(alloc, cap)?,
            },
            memo: LruCache::sparse(alloc, most)?,
            reclaims: 0,
            marks: Vec::with_capacity(alloc, cap as usize)?,
            ids: Vec::with_capacity(alloc, cap as usize)?,
            done: LruCache::sparse(alloc, most)?,
            chosen: Vec::with_capacity(alloc, counts.len())?,
            found: Vec::with_capacity(alloc, cap as usize)?,
        })
    }

    /// Holds no node any more, and has variables with these numbers of values. The room for nodes stays: memory is taken
    /// for the numbers of values alone. The time grows with the places, the results that are remembered, and the room.
    pub fn restart(&mut self, counts: &[u16]) -> Result<(), Memory>
        requires { AreCounts counts.now }
        ensures ok { OnOk result (self.new
            ≡ record { counts = counts.now; nodes = []; cap = self.old.cap; reclaims = 0 }) }
        ensures err { OnErr result (self.new ≡ self.old) }
    {
        reserve(&mut self.table.counts, counts.len())?;
        reserve(&mut self.chosen, counts.len())?;
        self.table.counts.clear();
        self.table.counts.extend_from_slice(counts).unwrap();
        let results = &mut self.memo;
        results.clear();
        self.table.pool.clear();
        self.reclaims = 0;
        Ok(())
    }

    /// The empty set.
    pub fn zero(&self) -> Dd
        ensures held { IsHeld self.now result }
        ensures set { (p : Point) → has self.now result p ≡ false }
    {
        ZERO
    }

    /// The set of all points.
    pub fn one(&self) -> Dd
        ensures held { IsHeld self.now result }
        ensures set { (p : Point) → has self.now result p ≡ true }
    {
        ONE
    }

    /// The points whose value of the variable is in the set.
    pub fn literal(&mut self, var: u32, set: ValueSet) -> Result<Dd, Nodes>
        requires { var < length self.old.counts }
        ensures keeps { Keeps self.old self.new }
        ensures held { IfOk result (IsHeld self.new) }
        ensures set { IfOk result
            (λ d. (p : Point) → InRange self.new.counts p
            → has self.new d p ≡ has_value set (p var)) }
        ensures full { IfErr result (HasNoRoom self.new) }
        ensures added { AddsRestrictions self.old self.new (λ p. has_value set (p var)) }
        ensures lacks { IfErr result (λ e. Lacks self.new (λ p. has_value set (p var))) }
    {
        literal_of(&mut self.table, var, set)
    }

    /// The points that have a value in the set of each literal. The variables of the literals ascend. The time is that of
    /// one walk over their values, from the last to the first.
    pub fn cube(&mut self, literals: &[Literal]) -> Result<Dd, Nodes>
        requires vars { All (λ (l : Literal). l.var < length self.old.counts) literals.now }
        requires ascends { AscendingVars literals.now }
        ensures keeps { Keeps self.old self.new }
        ensures held { IfOk result (IsHeld self.new) }
        ensures set { IfOk result (λ d. (p : Point) → InRange self.new.counts p
            → has self.new d p ≡ in_cube literals.now p) }
        ensures full { IfErr result (HasNoRoom self.new) }
        ensures added { AddsRestrictions self.old self.new (λ p. in_cube literals.now p) }
        ensures lacks { IfErr result (λ e. Lacks self.new (λ p. in_cube literals.now p)) }
    {
        cube_of(&mut self.table, literals)
    }

    /// The points that the operation has of the two sets.
    fn combine(&mut self, operation: Operation, a: Dd, b: Dd) -> Result<Dd, Nodes>
        requires left { IsHeld self.old a }
        requires right { IsHeld self.old b }
        ensures keeps { Keeps self.old self.new }
        ensures held { IfOk result (IsHeld self.new) }
        ensures set { IfOk result
            (λ d. (p : Point)
            → has self.new d p ≡ result_of operation (has self.old a p) (has self.old b p)) }
        ensures full { IfErr result (HasNoRoom self.new) }
        ensures added { AddsRestrictions self.old self.new
            (λ p. result_of operation (has self.old a p) (has self.old b p)) }
        ensures lacks { IfErr result
            (λ e. Lacks self.new (λ p. result_of operation (has self.old a p) (has self.old b p))) }
        ensures values { AreCounts self.new.counts }
    {
        apply(&mut self.table, &mut self.memo, operation, a, b)
    }

    /// The points of both. The time is that of visiting each pair of their nodes once, where all results are remembered.
    pub fn and(&mut self, a: Dd, b: Dd) -> Result<Dd, Nodes>
        requires left { IsHeld self.old a }
        requires right { IsHeld self.old b }
        ensures keeps { Keeps self.old self.new }
        ensures held { IfOk result (IsHeld self.new) }
        ensures set { IfOk result
            (λ d. (p : Point) → has self.new d p ≡ (has self.old a p && has self.old b p)) }
        ensures full { IfErr result (HasNoRoom self.new) }
        ensures added { AddsRestrictions self.old self.new
            (λ p. has self.old a p && has self.old b p) }
        ensures lacks { IfErr result
            (λ e. Lacks self.new (λ p. has self.old a p && has self.old b p)) }
    {
        self.combine(Operation::And, a, b)
    }

    /// The points of either.
    pub fn or(&mut self, a: Dd, b: Dd) -> Result<Dd, Nodes>
        requires left { IsHeld self.old a }
        requires right { IsHeld self.old b }
        ensures keeps { Keeps self.old self.new }
        ensures held { IfOk result (IsHeld self.new) }
        ensures set { IfOk result
            (λ d. (p : Point) → has self.new d p ≡ (has self.old a p || has self.old b p)) }
        ensures full { IfErr result (HasNoRoom self.new) }
        ensures added { AddsRestrictions self.old self.new
            (λ p. has self.old a p || has self.old b p) }
        ensures lacks { IfErr result
            (λ e. Lacks self.new (λ p. has self.old a p || has self.old b p)) }
    {
        self.combine(Operation::Or, a, b)
    }

    /// The points that aren't in it.
    pub fn not(&mut self, a: Dd) -> Result<Dd, Nodes>
        requires { IsHeld self.old a }
        ensures keeps { Keeps self.old self.new }
        ensures held { IfOk result (IsHeld self.new) }
        ensures set { IfOk result (λ d. (p : Point) → has self.new d p ≡ not (has self.old a p)) }
        ensures full { IfErr result (HasNoRoom self.new) }
        ensures added { AddsRestrictions self.old self.new (λ p. not (has self.old a p)) }
        ensures lacks { IfErr result (λ e. Lacks self.new (λ p. not (has self.old a p))) }
    {
        self.combine(Operation::Nand, a, a)
    }

    /// The set that has the answer exactly where the meet has it at some point that agrees outside these variables.
    fn spread(&mut self, answer: bool, a: Dd, b: Dd, vars: &[u32]) -> Result<Dd, Nodes>
        requires left { IsHeld self.old a }
        requires right { IsHeld self.old b }
        requires vars { All (λ v. v < length self.old.counts) vars.now }
        ensures keeps { Keeps self.old self.new }
        ensures held { IfOk result (IsHeld self.new) }
        ensures set { IfOk result
            (Spreads self.new vars.now answer (λ p. has self.old a p && has self.old b p)) }
        ensures full { IfErr result (HasNoRoom self.new) }
        ensures added { AddsAnswers self.old self.new vars.now answer
            (λ p. has self.old a p && has self.old b p) }
        ensures values { AreCounts self.new.counts }
    {
        choose(vars, self.table.counts.len(), &mut self.chosen);
        self.done.clear();
        quantify(
            &mut self.table,
            &mut self.memo,
            &mut self.done,
            self.chosen.as_slice(),
            answer,
            a,
            b,
        )
    }

    /// The points that agree, outside these variables, with some point of the set.
    pub fn exists(&mut self, a: Dd, vars: &[u32]) -> Result<Dd, Nodes>
        requires held { IsHeld self.old a }
        requires vars { All (λ v. v < length self.old.counts) vars.now }
        ensures keeps { Keeps self.old self.new }
        ensures held { IfOk result (IsHeld self.new) }
        ensures set { IfOk result (Exists self.old self.new vars.now a) }
        ensures full { IfErr result (HasNoRoom self.new) }
        ensures added { AddsUnions self.old self.new vars.now (λ p. has self.old a p) }
    {
        self.spread(true, a, a, vars)
    }

    /// The points that agree, outside these variables, with some point of both sets. The meet isn't made first. The time
    /// is that of visiting each pair of their nodes once, where all results are remembered, beside the unions that it
    /// makes.
    pub fn and_exists(&mut self, a: Dd, b: Dd, vars: &[u32]) -> Result<Dd, Nodes>
        requires left { IsHeld self.old a }
        requires right { IsHeld self.old b }
        requires vars { All (λ v. v < length self.old.counts) vars.now }
        ensures keeps { Keeps self.old self.new }
        ensures held { IfOk result (IsHeld self.new) }
        ensures set { IfOk result (ExistsBoth self.old self.new vars.now a b) }
        ensures full { IfErr result (HasNoRoom self.new) }
        ensures added { AddsUnions self.old self.new vars.now
            (λ p. has self.old a p && has self.old b p) }
    {
        self.spread(true, a, b, vars)
    }

    /// The points with which all that agree outside these variables are in the set.
    pub fn forall(&mut self, a: Dd, vars: &[u32]) -> Result<Dd, Nodes>
        requires held { IsHeld self.old a }
        requires vars { All (λ v. v < length self.old.counts) vars.now }
        ensures keeps { Keeps self.old self.new }
        ensures held { IfOk result (IsHeld self.new) }
        ensures set { IfOk result (Forall self.old self.new vars.now a) }
        ensures full { IfErr result (HasNoRoom self.new) }
        ensures added { AddsMeets self.old self.new vars.now (λ p. has self.old a p) }
    {
        self.spread(false, a, a, vars)
    }

    /// Whether the point is in the set.
    pub fn test(&self, a: Dd, point: &[Value]) -> bool
        requires held { IsHeld self.now a }
        requires point { IsPoint self.now.counts point.now }
        ensures { result ≡ has self.now a (point_of point.now) }
    {
        contains(&self.table, a, point)
    }

    /// Whether the two sets are equal: their numbers are.
    pub fn same(&self, a: Dd, b: Dd) -> bool
        requires left { IsHeld self.now a }
        requires right { IsHeld self.now b }
        ensures sets { IsTrue result
            ↔ SameSet self.now.counts (λ p. has self.now a p) (λ p. has self.now b p) }
        ensures numbers { IsTrue result ↔ (a ≡ b) }
    {
        let _ = &self.table;
        a == b
    }

    /// Sets the point to one of the set, or answers false where it has none.
    pub fn pick(&self, a: Dd, point: &mut [Value]) -> bool
        requires held { IsHeld self.now a }
        requires point { IsPoint self.now.counts point.old }
        ensures point { IsPoint self.now.counts point.new }
        ensures some { OnTrue result (has self.now a (point_of point.new) ≡ true) }
        ensures none { OnFalse result ((p : Point) → has self.now a p ≡ false) }
    {
        pick_in(&self.table, a, point)
    }

    /// Whether some point of the set has a value of each variable's set. No node is made. Each diagram is looked at once,
    /// beside that the time grows with the places.
    pub fn meets(&mut self, a: Dd, sets: &[ValueSet]) -> bool
        requires held { IsHeld self.old a }
        requires sets { AreChoices self.old.counts sets.now }
        ensures same { self.new ≡ self.old }
        ensures some { OnTrue result
            (Meets self.old.counts sets.now (λ p. has self.old a p)) }
        ensures none { OnFalse result
            (Misses self.old.counts sets.now (λ p. has self.old a p)) }
    {
        unmark(&mut self.marks, self.table.pool.len() as usize);
        meets_in(&self.table, self.marks.as_mut_slice(), sets, a)
    }

    /// How many nodes the diagram has: its first one, and those of the diagrams of its nodes, each once. The time grows
    /// with the places.
    pub fn size(&mut self, a: Dd) -> u32
        requires { IsHeld self.old a }
        ensures same { self.new ≡ self.old }
        ensures size { IsSize self.old.nodes a result }
    {
        find(&mut self.table, &mut self.found, a)
    }

    /// Marks the variables that the nodes of the diagram test, and no others. The set ignores those that aren't marked.
    /// The time grows with the places.
    pub fn variables(&mut self, a: Dd, seen: &mut [bool])
        requires held { IsHeld self.old a }
        requires long { length seen.old ≡ length self.old.counts }
        ensures same { self.new ≡ self.old }
        ensures long { length seen.new ≡ length self.old.counts }
        ensures seen { AreTested self.old a seen.new }
    {
        find(&mut self.table, &mut self.found, a);
        mark_tested(&self.table, self.found.as_slice(), seen);
    }

    /// The number of places, to release the diagrams that come later.
    pub fn mark(&self) -> Mark
        ensures length { result.0 ≡ length self.now.nodes }
        ensures earlier { (d : Dd) → IsHeld self.now d → d.0 < result.0 + 2 }
    {
        self.table.pool.mark()
    }

    /// Releases the diagrams that came after the mark, and forgets all results.
    pub fn release(&mut self, mark: Mark)
        requires within { mark.0 ≤ length self.old.nodes }
        requires none { self.old.reclaims ≡ 0 }
        ensures loses { Loses self.old self.new }
        ensures kept { (d : Dd) → IsHeld self.old d → d.0 < mark.0 + 2 → IsHeld self.new d }
        ensures nodes { self.new.nodes ≡ take mark.0 self.old.nodes }
        ensures reclaims { self.new.reclaims ≡ self.old.reclaims }
    {
        self.memo.clear();
        self.table.pool.release(mark);
    }

    /// Gives the places back that no root reaches, and forgets all results. The time grows with the places.
    pub fn reclaim(&mut self, roots: &[Dd])
        requires { All (IsHeld self.old) roots.now }
        ensures loses { Loses self.old self.new }
        ensures kept { (d : Dd) → Reaches self.old.nodes roots.now d.0 → IsHeld self.new d }
        ensures only { (d : Dd) → IsHeld self.new d → Reaches self.old.nodes roots.now d.0 }
        ensures reclaims { self.new.reclaims ≡ min (self.old.reclaims + 1) (2 ^ 64 - 1) }
    {
        let places = self.table.pool.len();
        gather(roots, places, &mut self.marks, &mut self.ids);
        let results = &mut self.memo;
        results.clear();
        self.table.pool.reclaim(self.ids.as_slice());
        self.reclaims = self.reclaims.saturating_add(1);
    }

    /// How often places were given back. The number ends at its greatest.
    pub fn reclaims(&self) -> u64
        ensures { result ≡ self.now.reclaims }
    {
        self.reclaims
    }
}

/// Makes room for so many elements in all.
fn reserve<T>(list: &mut Vec<T>, count: usize) -> Result<(), Memory>
    ensures items { list.new.items ≡ list.old.items }
    ensures room { vec_capacity list.old ≤ vec_capacity list.new }
    ensures ok { OnOk result (count ≤ vec_capacity list.new) }
{
    list.reserve(count.saturating_sub(list.len()))?;
    Ok(())
}
