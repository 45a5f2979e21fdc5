//! A change of a network where it stands: it costs what it changes.
ghost use Rattle.std.specs.Prelude.{◌≡◌, ◌+◌, ◌-◌, ◌≤◌, ◌++◌, List, Option, map, length, take, IfOk, OnOk, OnErr};
ghost use Rattle.mv_net.specs.Changes.{made_net, changed, Fits};
ghost use Rattle.mv_net.specs.declared.parts.FlatNet.{FlatNet};
ghost use Rattle.mv_net.specs.Formed.{WellFormed};
ghost use Rattle.mv_net.specs.Fresh.{AreMade};
ghost use Rattle.mv_net.specs.Kept.{IsNetwork};
ghost use Rattle.mv_net.specs.Names.{AreNamed, AreNames};
ghost use Rattle.mv_net.specs.NewRows.{CanTake, IsTaken};
ghost use Rattle.mv_net.specs.Tallies.{AreTallies};
ghost use Rattle.mv_dag.specs.Rows.{changed_rows};

use crate::kept::Kept;
use crate::made::raised;
use crate::names::{NameIndex, add_names, remove_names};
use crate::new_rows::rows_of;
use crate::settle::write_change;
use crate::tallies::{add_tallies, remove_tallies};
use crate::{Change, FlatNet, Kind, NetParts, NewNet};
use mv_base::{Items, MAX_NETS, Memory};
use mv_dag::{Dag, NewRow};
use std::alloc::Global;

/// The net that comes. It takes no memory.
fn made(new: NewNet) -> Option<FlatNet>
    ensures { result ≡ made_net new }
{
    let value_names = Items::new(new.table.lines.allocator());
    Some(FlatNet {
        name: new.name,
        values: new.values,
        value_names,
        kind: Kind::Table,
        table: Some(new.table),
    })
}

/// Puts the nets that come behind the others: all, or none on an error.
fn push_nets(nets: &mut Items<Option<FlatNet>>, add: Items<NewNet>) -> Result<(), Memory>
    ensures ok { OnOk result (nets.new ≡ nets.old ++ map made_net add) }
    ensures err { OnErr result (nets.new ≡ nets.old) }
{
    let long = nets.len();
    for new in add.into_vec() {
        if let Err(_) = nets.push(made(new)) {
            nets.truncate(long);
            return Err(Memory);
        }
    }
    Ok(())
}

/// Takes in the names of the nets from this number on and rows of the graph, and answers up to which number nets then have
/// all made names: all, or none on an error.
fn take_names(
    alloc: Global,
    names: &mut NameIndex,
    graph: &mut Dag,
    nets: &[Option<FlatNet>],
    long: usize,
    rows: Items<NewRow>,
    made: u32,
) -> Result<u32, Memory>
    requires within { long ≤ length nets.now }
    requires few { length nets.now ≤ MAX_NETS }
    requires named { AreNamed nets.now }
    requires names { AreNames (take long nets.now) names.old }
    requires made { AreMade nets.now made }
    requires graph { CanTake graph.old (length nets.now - long) rows }
    ensures names { OnOk result (AreNames nets.now names.new) }
    ensures made { IfOk result (λ high. AreMade nets.now high) }
    ensures graph { OnOk result (graph.new ≡ changed_rows rows (length nets.now - long) graph.old) }
    ensures no_names { OnErr result (AreNames (take long nets.now) names.new) }
    ensures no_graph { OnErr result (graph.new ≡ graph.old) }
{
    add_names(alloc, names, nets, long)?;
    match take_rows(alloc, names, graph, nets.len() - long, rows, made) {
        Ok(high) => Ok(high),
        Err(failed) => {
            remove_names(names, nets, long);
            Err(failed)
        }
    }
}

/// Takes in rows of the graph, for so many nets that come, and answers up to which number nets have all made names. Where
/// none comes that is the number from before, and no name is looked up.
fn take_rows(
    alloc: Global,
    names: &NameIndex,
    graph: &mut Dag,
    added: usize,
    rows: Items<NewRow>,
    made: u32,
) -> Result<u32, Memory>
    requires graph { CanTake graph.old added rows }
    ensures made { (nets : List (Option FlatNet)) → AreNames nets names.now → AreMade nets made
        → IfOk result (λ high. AreMade nets high) }
    ensures graph { OnOk result (graph.new ≡ changed_rows rows added graph.old) }
    ensures no_graph { OnErr result (graph.new ≡ graph.old) }
{
    if added == 0 {
        graph.change(added, rows)?;
        return Ok(made);
    }
    let high = raised(alloc, names, made)?;
    graph.change(added, rows)?;
    Ok(high)
}

/// Takes in the nets from this number on, which no table reads yet, and rows of the graph: all, or none on an error.
fn take_in(
    alloc: Global,
    kept: &mut Kept,
    nets: &[Option<FlatNet>],
    long: usize,
    rows: Items<NewRow>,
) -> Result<(), Memory>
    requires within { long ≤ length nets.now }
    requires few { length nets.now ≤ MAX_NETS }
    requires named { AreNamed nets.now }
    requires tallies { AreTallies (take long nets.now) kept.old.tallies }
    requires names { AreNames (take long nets.now) kept.old.names }
    requires made { AreMade (take long nets.now) kept.old.made }
    requires graph { CanTake kept.old.graph (length nets.now - long) rows }
    ensures seen { kept.new.seen ≡ kept.old.seen }
    ensures ok { OnOk result
        (IsTaken nets.now (changed_rows rows (length nets.now - long) kept.old.graph) kept.new) }
    ensures err { OnErr result (IsTaken (take long nets.now) kept.old.graph kept.new) }
{
    add_tallies(&mut kept.tallies, nets, long)?;
    match take_names(
        alloc,
        &mut kept.names,
        &mut kept.graph,
        nets,
        long,
        rows,
        kept.made,
    ) {
        Ok(high) => {
            kept.made = high;
            Ok(())
        }
        Err(failed) => {
            remove_tallies(&mut kept.tallies, nets, long);
            Err(failed)
        }
    }
}

/// Changes the parts of a network and what is kept of them, both or neither. What takes memory is done first: the nets that
/// come, what is kept of them, and the rows of the graph. The writes behind it take none.
pub fn put_change(parts: &mut NetParts, kept: &mut Kept, change: Change) -> Result<(), Memory>
    requires network { IsNetwork parts.old kept.old }
    requires few { length parts.old.nets + length change.add ≤ MAX_NETS }
    requires fits { Fits parts.old change }
    requires formed { WellFormed (changed parts.old change) }
    ensures ok { OnOk result (parts.new ≡ changed parts.old change) }
    ensures err { OnErr result (parts.new ≡ parts.old) }
    ensures network { IsNetwork parts.new kept.new }
{
    let long = parts.nets.len();
    let alloc = parts.nets.allocator();
    let rows = rows_of(alloc, &change, long)?;
    let Change {
        add,
        set,
        values,
        gone,
    } = change;
    push_nets(&mut parts.nets, add)?;
    if let Err(failed) = take_in(alloc, kept, parts.nets.as_slice(), long, rows) {
        parts.nets.truncate(long);
        return Err(failed);
    }
    write_change(
        &mut parts.nets,
        &mut kept.tallies,
        &mut kept.names,
        &mut kept.made,
        set,
        values,
        gone,
    );
    Ok(())
}
