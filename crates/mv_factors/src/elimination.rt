ghost use Rattle.std.specs.Prelude.{◌≡◌, ◌<◌, ◌≤◌, ℕ, [], true, false, length, slice_set, vec_capacity, All, IfErr, IfNone, IfSome, OnOk, OnErr};
ghost use Rattle.mv_diagram.specs.Diagrams.{HasNoRoom};
ghost use Rattle.mv_diagram.specs.Parts.{no_variable};
ghost use Rattle.mv_pool.specs.Walks.{mark};
ghost use Rattle.mv_factors.specs.declared.inner.Inner.{Inner};
ghost use Rattle.mv_factors.specs.Families.{Keeps, before};
ghost use Rattle.mv_factors.specs.Functions.{is_this};
ghost use Rattle.mv_factors.specs.Leaving.{Eliminates, EliminatesSome, is_inner};
ghost use Rattle.mv_factors.specs.Rooms.{Fits};
ghost use Rattle.mv_factors.specs.Seen.{AreSeen, Goes, HasRoom, HasRows, IsDone, IsNext, KeepsWork};

use crate::join::{join_all, put_away};
use crate::seen::{Work, look};
use crate::{Factors, Inner};
use mv_base::Memory;
use mv_diagram::Nodes;
use std::alloc::Global;
use std::marker::Model;

/// Room to eliminate variables from the sets of a list.
#[derive(Drop)]
pub struct Elimination {
    work: Work,
    /// How many places there is room for.
    places: usize,
    /// How many variables there is room for.
    vars: usize,
}

impl Model for Elimination {
    ghost use Rattle.mv_factors.specs.Rooms.{Room};

    ghost Value = { Room };

    ghost use Rattle.mv_factors.specs.Seen.{HasRoom};

    ghost view = { λ e. record { places = e.places; vars = e.vars } };

    ghost invariant = { λ e. HasRoom e.work e.places e.vars };
}

/// Looks at all sets from a place on.
fn look_at_all(work: &mut Work, factors: &mut Factors, from: usize)
    requires rows { HasRows work.old.rows.items (length factors.old.list)
        (length factors.old.contents.counts) }
    ensures same { factors.new ≡ factors.old }
    ensures rows { (places vars : ℕ) → HasRows work.old.rows.items places vars
        → HasRows work.new.rows.items places vars }
    ensures seen { AreSeen factors.old from work.new.rows.items }
    ensures work { KeepsWork work.old work.new }
{
    for place in from..factors.len() {
        look(work, factors, place);
    }
}

/// Marks the variables to eliminate, and lets all numbers be 0.
fn prepare(work: &mut Work, places: usize, vars: usize, inner: &[Inner])
    requires sizes { places ≤ vec_capacity work.old.sizes }
    requires costs { vars ≤ vec_capacity work.old.costs }
    requires left { vars ≤ vec_capacity work.old.left }
    requires inner { All (λ (i : Inner). i.var < vars) inner.now }
    ensures rows { work.new.rows ≡ work.old.rows }
    ensures sizes { vec_capacity work.old.sizes ≤ vec_capacity work.new.sizes }
    ensures costs { vec_capacity work.old.costs ≤ vec_capacity work.new.costs }
    ensures left { vec_capacity work.old.left ≤ vec_capacity work.new.left }
    ensures long { length work.new.left.items ≡ vars }
    ensures marked { All (λ (i : Inner). mark work.new.left.items i.var ≡ true) inner.now }
{
    work.sizes.clear();
    work.sizes.resize(places, 0).unwrap();
    work.costs.clear();
    work.costs.resize(vars, 0).unwrap();
    work.left.clear();
    work.left.resize(vars, false).unwrap();
    for one in inner {
        work.left[one.var as usize] = true;
    }
}

/// The variable that costs least of those that are left, among those of which a set may give the value, or among the
/// others.
fn cheapest(work: &Work, inner: &[Inner], given: bool) -> Option<Inner>
    requires { All (λ (i : Inner). i.var < length work.now.left.items) inner.now }
    ensures some { IfSome result (IsNext inner.now work.now.left.items) }
    ensures none { IfNone result (All (IsDone work.now.left.items given) inner.now) }
{
    let mut least: Option<Inner> = None;
    let mut nodes = u64::MAX;
    for one in inner {
        if work.left[one.var as usize] && one.given.is_some() == given {
            let cost = work
                .costs
                .as_slice()
                .get(one.var as usize)
                .copied()
                .unwrap_or(0);
            if least.is_none() || cost < nodes {
                least = Some(*one);
                nodes = cost;
            }
        }
    }
    least
}

/// The variable to eliminate next: first those of which a set may give the value.
fn next(work: &Work, inner: &[Inner]) -> Option<Inner>
    requires { All (λ (i : Inner). i.var < length work.now.left.items) inner.now }
    ensures some { IfSome result (IsNext inner.now work.now.left.items) }
    ensures none { IfNone result
        (All (λ (i : Inner). mark work.now.left.items i.var ≡ false) inner.now) }
{
    match cheapest(work, inner, true) {
        Some(one) => Some(one),
        None => cheapest(work, inner, false),
    }
}

/// Eliminates one variable.
fn eliminate_one(
    work: &mut Work,
    factors: &mut Factors,
    from: usize,
    one: Inner,
) -> Result<(), Nodes>
    requires var { one.var < length factors.old.contents.counts }
    requires rows { HasRows work.old.rows.items (length factors.old.list)
        (length factors.old.contents.counts) }
    requires seen { AreSeen factors.old from work.old.rows.items }
    ensures ok { OnOk result (Goes factors.old factors.new work.old.rows.items
        work.new.rows.items from (is_this one.var)) }
    ensures err { OnErr result (Goes factors.old factors.new work.old.rows.items
        work.new.rows.items from no_variable) }
    ensures full { IfErr result (HasNoRoom factors.new.contents) }
    ensures work { KeepsWork work.old work.new }
{
    let Some(given) = one.given else {
        return join_all(work, factors, from, one.var);
    };
    if given < from || given >= factors.len() {
        return join_all(work, factors, from, one.var);
    }
    if factors.gives(given, one.var) {
        put_away(work, factors, from, one.var, given)
    } else {
        join_all(work, factors, from, one.var)
    }
}

/// Takes the mark of a variable away.
fn unmark(work: &mut Work, var: u32)
    requires { var < length work.old.left.items }
    ensures marks { work.new.left.items ≡ slice_set work.old.left.items var false }
    ensures rows { work.new.rows ≡ work.old.rows }
    ensures sizes { vec_capacity work.old.sizes ≤ vec_capacity work.new.sizes }
    ensures costs { vec_capacity work.old.costs ≤ vec_capacity work.new.costs }
    ensures left { vec_capacity work.old.left ≤ vec_capacity work.new.left }
{
    work.left[var as usize] = false;
}

/// Eliminates the variables, all of which are marked, one after another.
fn eliminate_left(
    work: &mut Work,
    factors: &mut Factors,
    from: usize,
    inner: &[Inner],
) -> Result<(), Nodes>
    requires inner { All (λ (i : Inner). i.var < length factors.old.contents.counts) inner.now }
    requires long { length work.old.left.items ≡ length factors.old.contents.counts }
    requires marked { All (λ (i : Inner). mark work.old.left.items i.var ≡ true) inner.now }
    requires rows { HasRows work.old.rows.items (length factors.old.list)
        (length factors.old.contents.counts) }
    requires seen { AreSeen factors.old from work.old.rows.items }
    ensures keeps { Keeps factors.old factors.new (before from) }
    ensures long { length factors.new.list ≡ length factors.old.list }
    ensures ok { OnOk result (Eliminates factors.old factors.new from (is_inner inner.now)) }
    ensures err { OnErr result
        (EliminatesSome factors.old factors.new from (is_inner inner.now)) }
    ensures full { IfErr result (HasNoRoom factors.new.contents) }
    ensures room { (places vars : ℕ) → HasRoom work.old places vars
        → HasRoom work.new places vars }
{
    while let Some(one) = next(work, inner) {
        match eliminate_one(work, factors, from, one) {
            Ok(()) => unmark(work, one.var),
            Err(stop) => return Err(stop),
        }
    }
    Ok(())
}

/// Makes room for so many elements in all.
fn reserve<T>(list: &mut Vec<T>, count: usize) -> Result<(), Memory>
    ensures items { list.new.items ≡ list.old.items }
    ensures room { vec_capacity list.old ≤ vec_capacity list.new }
    ensures ok { OnOk result (count ≤ vec_capacity list.new) }
{
    list.reserve(count.saturating_sub(list.len()))?;
    Ok(())
}

/// Makes room for a row at each place.
fn reserve_rows(
    alloc: Global,
    rows: &mut Vec<Vec<bool>>,
    places: usize,
    vars: usize,
) -> Result<(), Memory>
    ensures { OnOk result (HasRows rows.new.items places vars) }
{
    for place in 0..places {
        if place < rows.len() {
            reserve(&mut rows[place], vars)?;
        } else {
            rows.push(Vec::with_capacity(alloc, vars)?)?;
        }
    }
    Ok(())
}

impl Elimination {
    /// There is room for nothing yet.
    pub fn new(alloc: Global) -> Elimination
        ensures { result ≡ record { places = 0; vars = 0 } }
    {
        Elimination {
            work: Work {
                rows: Vec::new(alloc),
                sizes: Vec::new(alloc),
                costs: Vec::new(alloc),
                left: Vec::new(alloc),
            },
            places: 0,
            vars: 0,
        }
    }

    /// Makes room for all sets that the list has room for. No other call takes memory.
    pub fn reserve(&mut self, alloc: Global, factors: &Factors) -> Result<(), Memory>
        ensures places { OnOk result (self.new.places ≡ factors.now.room) }
        ensures vars { OnOk result (self.new.vars ≡ length factors.now.contents.counts) }
    {
        let places = factors.room();
        let vars = factors.vars();
        self.places = 0;
        self.vars = 0;
        reserve_rows(alloc, &mut self.work.rows, places, vars)?;
        reserve(&mut self.work.sizes, places)?;
        reserve(&mut self.work.costs, vars)?;
        reserve(&mut self.work.left, vars)?;
        self.places = places;
        self.vars = vars;
        Ok(())
    }

    /// Eliminates variables from the meet of the sets from a place on, each out of the sets that depend on it: the one
    /// that costs least first, among those first of which a set may give the value. Where it does it is put into each of
    /// the others by itself. At Nodes some of the variables are eliminated.
    pub fn eliminate(
        &mut self,
        factors: &mut Factors,
        from: usize,
        inner: &[Inner],
    ) -> Result<(), Nodes>
        requires fits { Fits self.old factors.old }
        requires inner { All
            (λ (i : Inner). i.var < length factors.old.contents.counts) inner.now }
        ensures room { self.new ≡ self.old }
        ensures keeps { Keeps factors.old factors.new (before from) }
        ensures long { length factors.new.list ≡ length factors.old.list }
        ensures ok { OnOk result (Eliminates factors.old factors.new from (is_inner inner.now)) }
        ensures err { OnErr result
            (EliminatesSome factors.old factors.new from (is_inner inner.now)) }
        ensures full { IfErr result (HasNoRoom factors.new.contents) }
    {
        let work = &mut self.work;
        prepare(work, factors.len(), factors.vars(), inner);
        look_at_all(work, factors, from);
        eliminate_left(work, factors, from, inner)
    }
}
