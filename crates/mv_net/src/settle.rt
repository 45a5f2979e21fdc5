//! The writes of a change, none of which takes memory.
ghost use Rattle.std.specs.Prelude.{◌≡◌, ℕ, ◌≤◌, None, Some, [], length, slice_set, if◌then◌else◌};
ghost use Rattle.std.specs.Option.{option_map};
ghost use Rattle.mv_net.specs.Nets.{slot};
ghost use Rattle.mv_graph.specs.Nets.{has_id};
ghost use Rattle.mv_net.specs.Changes.{table_for, count_for, with_table, with_count, changed_net};
ghost use Rattle.mv_net.specs.Fresh.{AreMade};
ghost use Rattle.mv_net.specs.Names.{AreNames};
ghost use Rattle.mv_net.specs.Tallies.{AreTallies};

use crate::made::lowered;
use crate::names::{NameIndex, remove_net};
use crate::tallies::{Tallies, replace_net};
use crate::{FlatNet, NewCount, NewTable};
use mv_base::{Items, MAX_NETS, NetId};
use mv_cover::Cover;
use std::alloc::Global;

/// Takes the net out of its place. A number past the last has none.
fn take_net(nets: &mut Items<Option<FlatNet>>, tallies: &mut Tallies, n: NetId) -> Option<FlatNet>
    requires few { length nets.old ≤ MAX_NETS }
    requires tallies { AreTallies nets.old tallies.old }
    ensures net { result ≡ slot nets.old n.0 }
    ensures nets { nets.new ≡ slice_set nets.old n.0 None }
    ensures tallies { AreTallies nets.new tallies.new }
{
    let at = n.0 as usize;
    if at < nets.len() {
        return replace_net(nets, tallies, at, None);
    }
    None
}

/// Puts the net at this place. A number past the last gets none.
fn put_net(nets: &mut Items<Option<FlatNet>>, tallies: &mut Tallies, n: NetId, net: Option<FlatNet>)
    requires few { length nets.old ≤ MAX_NETS }
    requires tallies { AreTallies nets.old tallies.old }
    ensures nets { nets.new ≡ slice_set nets.old n.0 net }
    ensures tallies { AreTallies nets.new tallies.new }
{
    let at = n.0 as usize;
    if at < nets.len() {
        replace_net(nets, tallies, at, net);
    }
}

/// The net with this table.
fn tabled(net: Option<FlatNet>, table: Cover) -> Option<FlatNet>
    ensures { result ≡ option_map (with_table (Some table)) net }
{
    match net {
        Some(held) => Some(FlatNet {
            table: Some(table),
            ..held
        }),
        None => None,
    }
}

/// The net with this number of values, whose names are the numbers from 0.
fn counted(alloc: Global, net: Option<FlatNet>, values: u16) -> Option<FlatNet>
    ensures { result ≡ option_map (with_count (Some values)) net }
{
    match net {
        Some(held) => Some(FlatNet {
            values,
            value_names: Items::new(alloc),
            ..held
        }),
        None => None,
    }
}

/// Gives nets their other tables: the first that the list has for a net. From the list's end on, so that it is put last.
fn set_tables(nets: &mut Items<Option<FlatNet>>, tallies: &mut Tallies, mut set: Items<NewTable>)
    requires few { length nets.old ≤ MAX_NETS }
    requires tallies { AreTallies nets.old tallies.old }
    ensures long { length nets.new ≡ length nets.old }
    ensures each { (n : ℕ)
        → slot nets.new n ≡ option_map (with_table (table_for n set)) (slot nets.old n) }
    ensures tallies { AreTallies nets.new tallies.new }
{
    'all: while let Some(new) = set.pop() {
        let net = take_net(nets, tallies, new.net);
        put_net(nets, tallies, new.net, tabled(net, new.table));
    }
}

/// Gives nets their other numbers of values: the first that the list has for a net. From the list's end on, as above.
fn set_counts(nets: &mut Items<Option<FlatNet>>, tallies: &mut Tallies, mut values: Items<NewCount>)
    requires few { length nets.old ≤ MAX_NETS }
    requires tallies { AreTallies nets.old tallies.old }
    ensures long { length nets.new ≡ length nets.old }
    ensures each { (n : ℕ)
        → slot nets.new n ≡ option_map (with_count (count_for n values)) (slot nets.old n) }
    ensures tallies { AreTallies nets.new tallies.new }
{
    'all: while let Some(new) = values.pop() {
        let net = take_net(nets, tallies, new.net);
        put_net(
            nets,
            tallies,
            new.net,
            counted(nets.allocator(), net, new.values),
        );
    }
}

/// Lets the net of this number go, and its name with it.
fn drop_net(
    nets: &mut Items<Option<FlatNet>>,
    tallies: &mut Tallies,
    names: &mut NameIndex,
    made: &mut u32,
    n: NetId,
)
    requires few { length nets.old ≤ MAX_NETS }
    requires tallies { AreTallies nets.old tallies.old }
    requires names { AreNames nets.old names.old }
    requires made { AreMade nets.old made.old }
    ensures nets { nets.new ≡ slice_set nets.old n.0 None }
    ensures tallies { AreTallies nets.new tallies.new }
    ensures names { AreNames nets.new names.new }
    ensures made { AreMade nets.new made.new }
{
    let net = take_net(nets, tallies, n);
    remove_net(names, &net);
    *made = lowered(*made, &net);
}

/// Lets the nets of these numbers go, and their names with them.
fn drop_nets(
    nets: &mut Items<Option<FlatNet>>,
    tallies: &mut Tallies,
    names: &mut NameIndex,
    made: &mut u32,
    mut gone: Items<NetId>,
)
    requires few { length nets.old ≤ MAX_NETS }
    requires tallies { AreTallies nets.old tallies.old }
    requires names { AreNames nets.old names.old }
    requires made { AreMade nets.old made.old }
    ensures long { length nets.new ≡ length nets.old }
    ensures each { (n : ℕ) → slot nets.new n ≡ (if has_id gone n then None else slot nets.old n) }
    ensures tallies { AreTallies nets.new tallies.new }
    ensures names { AreNames nets.new names.new }
    ensures made { AreMade nets.new made.new }
{
    'all: while let Some(n) = gone.pop() {
        drop_net(nets, tallies, names, made, n);
    }
}

/// Writes a change to the nets that are there, with one write for each part of it, and to what is kept of them by number
/// and by name.
pub fn write_change(
    nets: &mut Items<Option<FlatNet>>,
    tallies: &mut Tallies,
    names: &mut NameIndex,
    made: &mut u32,
    set: Items<NewTable>,
    values: Items<NewCount>,
    gone: Items<NetId>,
)
    requires few { length nets.old ≤ MAX_NETS }
    requires tallies { AreTallies nets.old tallies.old }
    requires names { AreNames nets.old names.old }
    requires made { AreMade nets.old made.old }
    ensures long { length nets.new ≡ length nets.old }
    ensures each { (n : ℕ)
        → slot nets.new n ≡ changed_net (record {
          add = [];
          set = set;
          values = values;
          gone = gone;
        }) n (slot nets.old n) }
    ensures tallies { AreTallies nets.new tallies.new }
    ensures names { AreNames nets.new names.new }
    ensures made { AreMade nets.new made.new }
{
    set_tables(nets, tallies, set);
    set_counts(nets, tallies, values);
    drop_nets(nets, tallies, names, made, gone);
}
