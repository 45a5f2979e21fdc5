ghost use Rattle.std.specs.Prelude.{◌≡◌, ◌+◌, ◌<◌, ◌≤◌, ◌&&◌, ◌||◌, ◌↔◌, ℕ, [], true, false, not, length, vec_capacity, IsTrue, IfOk, IfErr, OnOk, OnErr, All};
ghost use Rattle.std.specs.Bool.{OnTrue, OnFalse};
ghost use Rattle.mv_diagram.specs.Sets.{Point, InRange, SameSet};
ghost use Rattle.mv_diagram.specs.Sound.{AreCounts};
ghost use Rattle.mv_diagram.specs.Quantified.{Spreads};
ghost use Rattle.mv_diagram.specs.declared.cube.Literal.{Literal};
ghost use Rattle.mv_diagram.specs.Cubes.{AscendingVars, in_cube};
ghost use Rattle.mv_diagram.specs.Choices.{AreChoices, Meets, Misses};
ghost use Rattle.mv_diagram.specs.Found.{AreTested, IsSize};
ghost use Rattle.mv_diagram.specs.Diagrams.{HasNoRoom, IsHeld, IsPoint, Keeps as Grows, has, point_of};
ghost use Rattle.mv_factors.specs.Families.{Keeps, before, but, diagram_at, everywhere, set_at};
ghost use Rattle.mv_factors.specs.Functions.{IsFunction};
ghost use Rattle.mv_factors.specs.Results.{result_of};

use crate::function::is_function;
use mv_base::{Memory, Value, ValueSet};
use mv_diagram::{Dd, Diagrams, Literal, Nodes};
use std::alloc::Global;
use std::marker::Model;

/// How often at most what isn't needed is given back, from one start to the next.
pub const MAX_RECLAIMS: u64 = 16;

/// An operation on sets of the list.
#[derive(Clone, Copy, Debug)]
pub enum Operation {
    Meet,
    Union,
    Complement,
}

/// A list of sets of points, as diagrams over one pool. An operation for which there is no room is made once more, after
/// what the list doesn't need was given back, unless that was done as often as it may be.
#[derive(Drop)]
pub struct Factors {
    diagrams: Diagrams,
    list: Vec<Dd>,
    /// The number of variables.
    vars: usize,
}

impl Model for Factors {
    ghost use Rattle.mv_factors.specs.Families.{Family};

    ghost Value = { Family };

    ghost use Rattle.std.specs.Prelude.{vec_capacity};
    ghost use Rattle.mv_factors.specs.Held.{AreHeld};

    ghost view = { λ f. record { contents = f.diagrams; list = f.list.items; room = vec_capacity f.list } };

    ghost invariant = { λ f. AreHeld f.diagrams f.list.items f.vars };
}

/// The result of an operation on two diagrams, of which the complement looks at the first alone.
fn combined(diagrams: &mut Diagrams, operation: Operation, a: Dd, b: Dd) -> Result<Dd, Nodes>
    requires left { IsHeld diagrams.old a }
    requires right { IsHeld diagrams.old b }
    ensures keeps { Grows diagrams.old diagrams.new }
    ensures held { IfOk result (IsHeld diagrams.new) }
    ensures set { IfOk result (λ d. (p : Point) → has diagrams.new d p
        ≡ result_of operation (has diagrams.old a p) (has diagrams.old b p)) }
    ensures full { IfErr result (HasNoRoom diagrams.new) }
{
    match operation {
        Operation::Meet => diagrams.and(a, b),
        Operation::Union => diagrams.or(a, b),
        Operation::Complement => diagrams.not(a),
    }
}

impl Factors {
    /// The empty list, over variables with these numbers of values. There is room for `cap` nodes and for `room` sets. No
    /// other call but `restart` answers want of memory.
    pub fn with_room(
        alloc: Global,
        counts: &[u16],
        cap: u32,
        room: usize,
    ) -> Result<Factors, Memory>
        requires { AreCounts counts.now }
        ensures contents { IfOk result (λ f. f.contents
            ≡ record { counts = counts.now; nodes = []; cap = cap; reclaims = 0 }) }
        ensures list { IfOk result (λ f. f.list ≡ []) }
        ensures room { IfOk result (λ f. f.room ≡ room) }
    {
        Ok(Factors {
            diagrams: Diagrams::with_room(alloc, counts, cap)?,
            list: Vec::with_capacity(alloc, room)?,
            vars: counts.len(),
        })
    }

    /// Empties the list, for variables with these numbers of values and room for so many sets. The room for nodes stays.
    pub fn restart(&mut self, counts: &[u16], room: usize) -> Result<(), Memory>
        requires { AreCounts counts.now }
        ensures contents { OnOk result (self.new.contents
            ≡ record { counts = counts.now; nodes = []; cap = self.old.contents.cap; reclaims = 0 }) }
        ensures list { OnOk result (self.new.list ≡ []) }
        ensures room { OnOk result (room ≤ self.new.room) }
        ensures same { OnErr result (Keeps self.old self.new everywhere) }
        ensures long { OnErr result (length self.new.list ≡ length self.old.list) }
    {
        self.list.reserve(room.saturating_sub(self.list.len()))?;
        match self.diagrams.restart(counts) {
            Ok(()) => {
                self.list.clear();
                self.vars = counts.len();
                Ok(())
            }
            Err(stop) => Err(stop),
        }
    }

    /// How many sets there are.
    pub fn len(&self) -> usize
        ensures { result ≡ length self.now.list }
    {
        self.list.len()
    }

    /// How many sets there is room for.
    pub fn room(&self) -> usize
        ensures { result ≡ self.now.room }
    {
        self.list.capacity()
    }

    /// How many variables there are.
    pub fn vars(&self) -> usize
        ensures { result ≡ length self.now.contents.counts }
    {
        self.vars
    }

    /// How often what wasn't needed was given back.
    pub fn reclaims(&self) -> u64
        ensures reclaims { result ≡ self.now.contents.reclaims }
        ensures few { result ≤ MAX_RECLAIMS }
    {
        self.diagrams.reclaims()
    }

    /// Gives back what the list doesn't need, unless that was done as often as it may be.
    fn make_room(&mut self) -> bool
        ensures keeps { Keeps self.old self.new everywhere }
        ensures list { self.new.list ≡ self.old.list }
        ensures none { OnFalse result (self.new ≡ self.old) }
    {
        if self.diagrams.reclaims() >= MAX_RECLAIMS {
            return false;
        }
        self.diagrams.reclaim(self.list.as_slice());
        true
    }

    /// Puts a cube behind the list, if there is room.
    fn add_cube_once(&mut self, literals: &[Literal]) -> Result<(), Nodes>
        requires room { length self.old.list < self.old.room }
        requires vars { All (λ (l : Literal). l.var < length self.old.contents.counts) literals.now }
        requires ascends { AscendingVars literals.now }
        ensures keeps { Keeps self.old self.new (before (length self.old.list)) }
        ensures long { OnOk result (length self.new.list ≡ length self.old.list + 1) }
        ensures set { OnOk result ((p : Point) → InRange self.old.contents.counts p
            → set_at self.new (length self.old.list) p ≡ in_cube literals.now p) }
        ensures same { OnErr result (self.new.list ≡ self.old.list) }
        ensures full { IfErr result (HasNoRoom self.new.contents) }
    {
        match self.diagrams.cube(literals) {
            Ok(made) => {
                self.list.push_reserved(made);
                Ok(())
            }
            Err(stop) => Err(stop),
        }
    }

    /// Puts the set of the points that have a value in the set of each literal behind the list. The variables of the
    /// literals ascend.
    pub fn add_cube(&mut self, literals: &[Literal]) -> Result<(), Nodes>
        requires room { length self.old.list < self.old.room }
        requires vars { All (λ (l : Literal). l.var < length self.old.contents.counts) literals.now }
        requires ascends { AscendingVars literals.now }
        ensures keeps { Keeps self.old self.new (before (length self.old.list)) }
        ensures long { OnOk result (length self.new.list ≡ length self.old.list + 1) }
        ensures set { OnOk result ((p : Point) → InRange self.old.contents.counts p
            → set_at self.new (length self.old.list) p ≡ in_cube literals.now p) }
        ensures same { OnErr result (self.new.list ≡ self.old.list) }
        ensures full { IfErr result (HasNoRoom self.new.contents) }
    {
        match self.add_cube_once(literals) {
            Ok(()) => Ok(()),
            Err(stop) => {
                if self.make_room() {
                    self.add_cube_once(literals)
                } else {
                    Err(stop)
                }
            }
        }
    }

    /// Puts the set of all points behind the list.
    pub fn add_all(&mut self)
        requires { length self.old.list < self.old.room }
        ensures keeps { Keeps self.old self.new (before (length self.old.list)) }
        ensures long { length self.new.list ≡ length self.old.list + 1 }
        ensures set { (p : Point) → set_at self.new (length self.old.list) p ≡ true }
    {
        self.list.push_reserved(self.diagrams.one());
    }

    /// Puts the empty set behind the list.
    pub fn add_none(&mut self)
        requires { length self.old.list < self.old.room }
        ensures keeps { Keeps self.old self.new (before (length self.old.list)) }
        ensures long { length self.new.list ≡ length self.old.list + 1 }
        ensures set { (p : Point) → set_at self.new (length self.old.list) p ≡ false }
    {
        self.list.push_reserved(self.diagrams.zero());
    }

    /// Puts the set of a place behind the list too.
    pub fn add_copy(&mut self, place: usize)
        requires place { place < length self.old.list }
        requires room { length self.old.list < self.old.room }
        ensures keeps { Keeps self.old self.new (before (length self.old.list)) }
        ensures long { length self.new.list ≡ length self.old.list + 1 }
        ensures set { (p : Point) → set_at self.new (length self.old.list) p
            ≡ set_at self.old place p }
    {
        let made = self.list[place];
        self.list.push_reserved(made);
    }

    /// Lets the sets from a place on go.
    pub fn cut(&mut self, count: usize)
        requires { count ≤ length self.old.list }
        ensures keeps { Keeps self.old self.new (before count) }
        ensures long { length self.new.list ≡ count }
    {
        self.list.truncate(count);
    }

    /// Puts the set of all points at a place.
    pub fn fill(&mut self, place: usize)
        requires { place < length self.old.list }
        ensures keeps { Keeps self.old self.new (but place) }
        ensures long { length self.new.list ≡ length self.old.list }
        ensures set { (p : Point) → set_at self.new place p ≡ true }
    {
        self.list[place] = self.diagrams.one();
    }

    /// Puts the result of an operation on the sets of two places at the first of them, if there is room.
    fn combine_once(
        &mut self,
        operation: Operation,
        place: usize,
        other: usize,
    ) -> Result<(), Nodes>
        requires place { place < length self.old.list }
        requires other { other < length self.old.list }
        ensures keeps { Keeps self.old self.new (but place) }
        ensures long { length self.new.list ≡ length self.old.list }
        ensures set { OnOk result ((p : Point) → set_at self.new place p
            ≡ result_of operation (set_at self.old place p) (set_at self.old other p)) }
        ensures same { OnErr result (Keeps self.old self.new everywhere) }
        ensures full { IfErr result (HasNoRoom self.new.contents) }
    {
        let left = self.list[place];
        let right = self.list[other];
        match combined(&mut self.diagrams, operation, left, right) {
            Ok(made) => {
                self.list[place] = made;
                Ok(())
            }
            Err(stop) => Err(stop),
        }
    }

    /// Puts the result of an operation on the sets of two places at the first of them.
    fn combine(&mut self, operation: Operation, place: usize, other: usize) -> Result<(), Nodes>
        requires place { place < length self.old.list }
        requires other { other < length self.old.list }
        ensures keeps { Keeps self.old self.new (but place) }
        ensures long { length self.new.list ≡ length self.old.list }
        ensures set { OnOk result ((p : Point) → set_at self.new place p
            ≡ result_of operation (set_at self.old place p) (set_at self.old other p)) }
        ensures same { OnErr result (Keeps self.old self.new everywhere) }
        ensures full { IfErr result (HasNoRoom self.new.contents) }
    {
        match self.combine_once(operation, place, other) {
            Ok(()) => Ok(()),
            Err(stop) => {
                if self.make_room() {
                    self.combine_once(operation, place, other)
                } else {
                    Err(stop)
                }
            }
        }
    }

    /// Leaves in the set of a place the points that the set of another place has too.
    pub fn meet(&mut self, place: usize, other: usize) -> Result<(), Nodes>
        requires place { place < length self.old.list }
        requires other { other < length self.old.list }
        ensures keeps { Keeps self.old self.new (but place) }
        ensures long { length self.new.list ≡ length self.old.list }
        ensures set { OnOk result ((p : Point) → set_at self.new place p
            ≡ (set_at self.old place p && set_at self.old other p)) }
        ensures same { OnErr result (Keeps self.old self.new everywhere) }
        ensures full { IfErr result (HasNoRoom self.new.contents) }
    {
        self.combine(Operation::Meet, place, other)
    }

    /// Puts the points of the set of another place into the set of a place.
    pub fn unite(&mut self, place: usize, other: usize) -> Result<(), Nodes>
        requires place { place < length self.old.list }
        requires other { other < length self.old.list }
        ensures keeps { Keeps self.old self.new (but place) }
        ensures long { length self.new.list ≡ length self.old.list }
        ensures set { OnOk result ((p : Point) → set_at self.new place p
            ≡ (set_at self.old place p || set_at self.old other p)) }
        ensures same { OnErr result (Keeps self.old self.new everywhere) }
        ensures full { IfErr result (HasNoRoom self.new.contents) }
    {
        self.combine(Operation::Union, place, other)
    }

    /// Puts the points that aren't in the set of a place in its stead.
    pub fn complement(&mut self, place: usize) -> Result<(), Nodes>
        requires { place < length self.old.list }
        ensures keeps { Keeps self.old self.new (but place) }
        ensures long { length self.new.list ≡ length self.old.list }
        ensures set { OnOk result ((p : Point) → set_at self.new place p
            ≡ not (set_at self.old place p)) }
        ensures same { OnErr result (Keeps self.old self.new everywhere) }
        ensures full { IfErr result (HasNoRoom self.new.contents) }
    {
        self.combine(Operation::Complement, place, place)
    }

    /// Leaves variables out of the meet of the sets of two places, if there is room.
    fn leave_out_once(&mut self, place: usize, other: usize, vars: &[u32]) -> Result<(), Nodes>
        requires place { place < length self.old.list }
        requires other { other < length self.old.list }
        requires vars { All (λ v. v < length self.old.contents.counts) vars.now }
        ensures keeps { Keeps self.old self.new (but place) }
        ensures long { length self.new.list ≡ length self.old.list }
        ensures set { OnOk result (Spreads self.new.contents vars.now true
            (λ q. set_at self.old place q && set_at self.old other q) (diagram_at self.new place)) }
        ensures same { OnErr result (Keeps self.old self.new everywhere) }
        ensures full { IfErr result (HasNoRoom self.new.contents) }
    {
        let left = self.list[place];
        let right = self.list[other];
        match self.diagrams.and_exists(left, right, vars) {
            Ok(made) => {
                self.list[place] = made;
                Ok(())
            }
            Err(stop) => Err(stop),
        }
    }

    /// Puts the points that agree, outside these variables, with some point of the sets of two places at the first of
    /// them.
    pub fn leave_out(&mut self, place: usize, other: usize, vars: &[u32]) -> Result<(), Nodes>
        requires place { place < length self.old.list }
        requires other { other < length self.old.list }
        requires vars { All (λ v. v < length self.old.contents.counts) vars.now }
        ensures keeps { Keeps self.old self.new (but place) }
        ensures long { length self.new.list ≡ length self.old.list }
        ensures set { OnOk result (Spreads self.new.contents vars.now true
            (λ q. set_at self.old place q && set_at self.old other q) (diagram_at self.new place)) }
        ensures same { OnErr result (Keeps self.old self.new everywhere) }
        ensures full { IfErr result (HasNoRoom self.new.contents) }
    {
        match self.leave_out_once(place, other, vars) {
            Ok(()) => Ok(()),
            Err(stop) => {
                if self.make_room() {
                    self.leave_out_once(place, other, vars)
                } else {
                    Err(stop)
                }
            }
        }
    }

    /// Whether the point is in the set of a place.
    pub fn test(&self, place: usize, point: &[Value]) -> bool
        requires place { place < length self.now.list }
        requires point { IsPoint self.now.contents.counts point.now }
        ensures { result ≡ set_at self.now place (point_of point.now) }
    {
        self.diagrams.test(self.list[place], point)
    }

    /// Sets the point to one of the set of a place, or answers false where it has none.
    pub fn pick(&self, place: usize, point: &mut [Value]) -> bool
        requires place { place < length self.now.list }
        requires point { IsPoint self.now.contents.counts point.old }
        ensures point { IsPoint self.now.contents.counts point.new }
        ensures some { OnTrue result (set_at self.now place (point_of point.new) ≡ true) }
        ensures none { OnFalse result ((p : Point) → set_at self.now place p ≡ false) }
    {
        self.diagrams.pick(self.list[place], point)
    }

    /// Whether some point of the set of a place has a value of each variable's set. No node is made.
    pub fn meets(&mut self, place: usize, sets: &[ValueSet]) -> bool
        requires place { place < length self.old.list }
        requires sets { AreChoices self.old.contents.counts sets.now }
        ensures same { self.new ≡ self.old }
        ensures some { OnTrue result
            (Meets self.old.contents.counts sets.now (λ p. set_at self.old place p)) }
        ensures none { OnFalse result
            (Misses self.old.contents.counts sets.now (λ p. set_at self.old place p)) }
    {
        self.diagrams.meets(self.list[place], sets)
    }

    /// Whether the sets of two places are equal.
    pub fn same(&self, place: usize, other: usize) -> bool
        requires place { place < length self.now.list }
        requires other { other < length self.now.list }
        ensures { IsTrue result ↔ SameSet self.now.contents.counts
            (λ p. set_at self.now place p) (λ p. set_at self.now other p) }
    {
        self.diagrams.same(self.list[place], self.list[other])
    }

    /// How many nodes the set of a place has.
    pub fn size(&mut self, place: usize) -> u32
        requires { place < length self.old.list }
        ensures same { self.new ≡ self.old }
        ensures size { IsSize self.old.contents.nodes (diagram_at self.old place) result }
    {
        self.diagrams.size(self.list[place])
    }

    /// Marks the variables that the nodes of the set of a place test, and no others.
    pub fn variables(&mut self, place: usize, seen: &mut [bool])
        requires place { place < length self.old.list }
        requires long { length seen.old ≡ length self.old.contents.counts }
        ensures same { self.new ≡ self.old }
        ensures long { length seen.new ≡ length self.old.contents.counts }
        ensures seen { AreTested self.old.contents (diagram_at self.old place) seen.new }
    {
        self.diagrams.variables(self.list[place], seen);
    }

    /// Whether the set of a place gives a variable one value, if there is room to find out.
    fn gives_once(&mut self, place: usize, var: u32) -> Result<bool, Nodes>
        requires place { place < length self.old.list }
        requires var { var < length self.old.contents.counts }
        ensures keeps { Keeps self.old self.new everywhere }
        ensures list { self.new.list ≡ self.old.list }
        ensures function { IfOk result (λ is. OnTrue is
            (IsFunction self.old.contents.counts (λ p. set_at self.old place p) var)) }
    {
        is_function(&mut self.diagrams, self.list[place], var)
    }

    /// Whether the set of a place gives a variable one value, at each point of the others. It answers false too where
    /// there is no room to find out.
    pub fn gives(&mut self, place: usize, var: u32) -> bool
        requires place { place < length self.old.list }
        requires var { var < length self.old.contents.counts }
        ensures keeps { Keeps self.old self.new everywhere }
        ensures list { self.new.list ≡ self.old.list }
        ensures function { OnTrue result
            (IsFunction self.old.contents.counts (λ p. set_at self.old place p) var) }
    {
        match self.gives_once(place, var) {
            Ok(is) => is,
            Err(_) => {
                if self.make_room() {
                    self.gives_once(place, var).unwrap_or(false)
                } else {
                    false
                }
            }
        }
    }
}
