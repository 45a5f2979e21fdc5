ghost use Rattle.std.specs.Prelude.{◌≡◌, ◌<◌, ◌≤◌, ◌++◌, [], true, false, length, IfOk, MatchOption, OnOk, All};
ghost use Rattle.mv_base.specs.declared.limits.TheConstants.{MAX_VALUES};
ghost use Rattle.mv_rows.specs.Columns.{rises_after};
ghost use Rattle.mv_rows.specs.Cubes.{IsFrame, FitRow, IsRowCube, HasNoPoint};
ghost use Rattle.mv_rows.specs.Meeting.{opened, ended, closed, continued, literals_of, all_possible, ArePossible};

use crate::column::{Column, Frame, Placed};
use mv_base::{Memory, PackedSet};
use mv_cover::{Cube, Lit};
use smallvec::SmallVec;
use std::alloc::Global;

/// The literals of a row while it is made: two of them take no memory.
type Lits = SmallVec<Lit, 2>;

impl Frame {
    /// The cube of a row with these sets in the columns: the sets of columns of one net are met, and a full set is no
    /// literal. None where no values of the nets lie in all sets.
    pub fn cube(&self, alloc: Global, sets: &[PackedSet]) -> Result<Option<Cube>, Memory>
        requires frame { IsFrame self.now }
        requires sets { FitRow self.now.columns sets.now }
        ensures { IfOk result
            (λ found. MatchOption found (HasNoPoint self.now.columns sets.now)
            (λ cube. IsRowCube self.now.columns sets.now cube)) }
    {
        cube(alloc, self.order.as_slice(), sets)
    }
}

/// The cube of a row whose columns are in order, or None where a net is left without values.
fn cube(alloc: Global, order: &[Placed], sets: &[PackedSet]) -> Result<Option<Cube>, Memory>
    requires places { All (λ p. p.place < length sets.now) order.now }
    requires counts { All (λ p. p.column.count ≤ MAX_VALUES) order.now }
    requires rises { rises_after 0 order.now ≡ true }
    ensures { IfOk result
        (λ found. MatchOption found (all_possible (literals_of sets.now order.now) ≡ false)
        (λ cube. ArePossible (literals_of sets.now order.now) cube)) }
{
    let mut lits = SmallVec::with_capacity(alloc, narrowing(order, sets))?;
    put_literals(&mut lits, order, sets)?;
    if !possible(lits.as_slice()) {
        return Ok(None);
    }
    Ok(Some(Cube::of(lits)))
}

/// How many columns leave a value out, for which the literals need room.
fn narrowing(order: &[Placed], sets: &[PackedSet]) -> usize
    requires places { All (λ p. p.place < length sets.now) order.now }
    requires counts { All (λ p. p.column.count ≤ MAX_VALUES) order.now }
{
    let mut columns: usize = 0;
    for placed in order {
        if !sets[placed.place].is_full(placed.column.count) {
            columns = columns.saturating_add(1);
        }
    }
    columns
}

/// Whether no literal has the empty set.
fn possible(lits: &[Lit]) -> bool
    ensures { result ≡ all_possible lits.now }
{
    lits.iter().all(|l| !l.is_empty())
}

/// A net whose columns are being met, and what they leave it so far.
#[derive(Drop)]
struct Group {
    column: Column,
    set: PackedSet,
}

/// Adds a literal for each net whose columns leave a value out, by ascending net, where there is none so far.
fn put_literals(lits: &mut Lits, order: &[Placed], sets: &[PackedSet]) -> Result<(), Memory>
    requires none { lits.old.items ≡ [] }
    requires places { All (λ p. p.place < length sets.now) order.now }
    requires counts { All (λ p. p.column.count ≤ MAX_VALUES) order.now }
    ensures { OnOk result (lits.new.items ≡ literals_of sets.now order.now) }
{
    let Some(first) = order.first() else {
        return Ok(());
    };
    let alloc = *lits.allocator();
    let mut group = opened(alloc, &first.column)?;
    for placed in order {
        put_ended(lits, &group, &placed.column)?;
        go_on(&mut group, alloc, &placed.column, &sets[placed.place])?;
    }
    put_closed(lits, &group)
}

/// The column's net with all of its values.
fn opened(alloc: Global, column: &Column) -> Result<Group, Memory>
    requires { column.now.count ≤ MAX_VALUES }
    ensures { IfOk result (λ group. group ≡ opened column.now) }
{
    Ok(Group {
        column: *column,
        set: PackedSet::full(alloc, column.count)?,
    })
}

/// Meets the net with one more set, or goes on to the column's net if it is another one.
fn go_on(group: &mut Group, alloc: Global, column: &Column, set: &PackedSet) -> Result<(), Memory>
    ensures { OnOk result (group.new ≡ continued group.old column.now set.now) }
{
    if column.net == group.column.net {
        group.set = group.set.meet(alloc, set)?;
    } else {
        group.column = *column;
        group.set = set.copy()?;
    }
    Ok(())
}

/// Adds the literal of the net, if the column is of another net.
fn put_ended(lits: &mut Lits, group: &Group, column: &Column) -> Result<(), Memory>
    requires { group.now.column.count ≤ MAX_VALUES }
    ensures { OnOk result (lits.new.items ≡ lits.old.items ++ ended group.now column.now) }
{
    if column.net == group.column.net {
        return Ok(());
    }
    put_closed(lits, group)
}

/// Adds the literal of the net, if a value is left out.
fn put_closed(lits: &mut Lits, group: &Group) -> Result<(), Memory>
    requires { group.now.column.count ≤ MAX_VALUES }
    ensures { OnOk result (lits.new.items ≡ lits.old.items ++ closed group.now) }
{
    if group.set.is_full(group.column.count) {
        return Ok(());
    }
    let alloc = *lits.allocator();
    lits.push(Lit::of(alloc, group.column.net, &group.set)?)?;
    Ok(())
}
