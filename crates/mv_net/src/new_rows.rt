//! The rows that a change gives nets in the graph of who reads whom.
ghost use Rattle.std.specs.Prelude.{◌≡◌, ℕ, ◌+◌, ◌≤◌, ◌++◌, List, Option, map, length, IfOk, OnOk};
ghost use Rattle.mv_cover.specs.declared.cover.Cover.{Cover};
ghost use Rattle.mv_net.specs.NewRows.{no_table, new_table, added_tables, tables_of, AreRows};

use crate::fanins::fanins_of_cover;
use crate::{Change, NewNet, NewTable};
use mv_base::{Items, MAX_NETS, Memory, NetId};
use mv_dag::NewRow;
use std::alloc::Global;

/// Puts rows of these nets behind the others: they read no net.
fn push_gone(rows: &mut Items<NewRow>, gone: &[NetId]) -> Result<(), Memory>
    ensures { (tables : List (ℕ × Option Cover)) → AreRows tables rows.old
        → OnOk result (AreRows (tables ++ map no_table gone.now) rows.new) }
{
    for net in gone {
        rows.push(NewRow {
            net: *net,
            fanins: Items::new(rows.allocator()),
        })?;
    }
    Ok(())
}

/// Puts rows of nets with these tables behind the others.
fn push_set(rows: &mut Items<NewRow>, set: &[NewTable]) -> Result<(), Memory>
    ensures { (tables : List (ℕ × Option Cover)) → AreRows tables rows.old
        → OnOk result (AreRows (tables ++ map new_table set.now) rows.new) }
{
    for new in set {
        let fanins = fanins_of_cover(rows.allocator(), &new.table)?;
        rows.push(NewRow {
            net: new.net,
            fanins,
        })?;
    }
    Ok(())
}

/// Puts rows of nets that come, with the numbers from this one on, behind the others.
fn push_added(rows: &mut Items<NewRow>, add: &[NewNet], first: usize) -> Result<(), Memory>
    requires { first + length add.now ≤ MAX_NETS }
    ensures { (tables : List (ℕ × Option Cover)) → AreRows tables rows.old
        → OnOk result (AreRows (tables ++ added_tables first add.now) rows.new) }
{
    for (place, new) in add.iter().enumerate() {
        let fanins = fanins_of_cover(rows.allocator(), &new.table)?;
        rows.push(NewRow {
            net: NetId((first + place) as u32),
            fanins,
        })?;
    }
    Ok(())
}

/// The rows of the nets whose tables are others behind the change; those that come get the numbers from this one on.
pub fn rows_of(alloc: Global, change: &Change, first: usize) -> Result<Items<NewRow>, Memory>
    requires { first + length change.now.add ≤ MAX_NETS }
    ensures { IfOk result (λ rows. AreRows (tables_of change.now first) rows) }
{
    let mut rows = Items::new(alloc);
    push_gone(&mut rows, change.gone.as_slice())?;
    push_set(&mut rows, change.set.as_slice())?;
    push_added(&mut rows, change.add.as_slice(), first)?;
    Ok(rows)
}
