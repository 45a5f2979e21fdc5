ghost use Rattle.std.specs.Prelude.{◌≡◌, ◌+◌, ◌*◌, ◌-◌, ◌^◌, ◌++◌, min, is_some, not, IsTrue, IfOk, OnOk, MatchBool};
ghost use Rattle.std.specs.List.{filter, list_any};
ghost use Rattle.mv_base.specs.declared.number.NetId.{NetId};
ghost use Rattle.mv_graph.specs.Nets.{has_id};
ghost use Rattle.mv_net.specs.Nets.{slot, table_in, values_in};
ghost use Rattle.mv_net.specs.Index.{is_held};
ghost use Rattle.mv_net.specs.Searching.{AreHeld, HasExactly, HasTables};
ghost use Rattle.mv_net.specs.Window.{Lists, IsAround, IsWindow, IsWindowInput, IsWindowOutput, IsShown, ways_in, ways_of, levels_of};

use crate::Network;
use crate::fanins::ascending;
use crate::search::Way;
use indexmap::IndexSet;
use mv_base::{Items, Memory, NetId};

/// Tables around a net, with the nets that they read from outside, and those of them that are seen or read outside. Each
/// list ascends.
#[derive(Debug, Drop)]
pub struct Window {
    pub tables: Items<NetId>,
    pub inputs: Items<NetId>,
    pub outputs: Items<NetId>,
}

impl Network {
    /// The window around a net with a table. Its tables are the net, those that at most `d` steps from a net to a reader
    /// lead to, and those that at most `u` steps from one of these to a fanin lead to. It costs what it answers with the
    /// fanins and readers of its tables, and sorts.
    pub fn window(&self, n: NetId, d: u8, u: u8) -> Result<Window, Memory>
        requires { IsTrue (is_some (table_in (slot self.now.nets n.0))) }
        ensures { IfOk result (λ w. IsWindow self.now n.0 d u w) }
    {
        let found = self.around(n, d, u)?;
        let tables = self.tables_among(&found)?;
        let list = Vec::from_slice(*tables.allocator(), tables.as_slice())?;
        let inputs = self.inputs_of(&tables)?;
        let outputs = self.outputs_of(&tables)?;
        Ok(Window {
            tables: ascending(list),
            inputs,
            outputs,
        })
    }

    /// The nets within `u` steps above those within `d` steps below a held net.
    fn around(&self, n: NetId, d: u8, u: u8) -> Result<IndexSet<NetId>, Memory>
        requires { IsTrue (is_held self.now.nets n.0) }
        ensures held { IfOk result (λ found. AreHeld self.now.nets found.keys) }
        ensures members { IfOk result
            (λ found. HasExactly (IsAround self.now.nets n.0 d u) found.keys) }
    {
        let mut found = IndexSet::new(self.parts().nets.allocator());
        found.insert(n)?;
        self.grow(Way::Down, &mut found, d)?;
        self.grow(Way::Up, &mut found, u)?;
        Ok(found)
    }

    /// Those of these nets that have a table.
    fn tables_among(&self, found: &IndexSet<NetId>) -> Result<IndexSet<NetId>, Memory>
        requires { AreHeld self.now.nets found.now.keys }
        ensures { IfOk result (λ tables. HasTables self.now.nets found.now.keys tables.keys) }
    {
        let mut tables = IndexSet::new(*found.allocator());
        for net in found.as_slice() {
            if self.has_table(*net) {
                tables.insert(*net)?;
            }
        }
        Ok(tables)
    }

    /// Whether a held net has a table.
    fn has_table(&self, n: NetId) -> bool
        requires { IsTrue (is_held self.now.nets n.0) }
        ensures { result ≡ is_some (table_in (slot self.now.nets n.0)) }
    {
        self.table(n).is_some()
    }

    /// The nets that these tables read and that are none of them, ascending.
    fn inputs_of(&self, tables: &IndexSet<NetId>) -> Result<Items<NetId>, Memory>
        requires { AreHeld self.now.nets tables.now.keys }
        ensures { IfOk result
            (λ inputs. Lists (IsWindowInput self.now.nets (has_id tables.now.keys)) inputs) }
    {
        let mut read = Vec::new(*tables.allocator());
        for net in tables.as_slice() {
            add_outside(&mut read, tables, self.fanins(*net))?;
        }
        Ok(ascending(read))
    }

    /// Those of these tables that are seen, or read by a net that is none of them, ascending.
    fn outputs_of(&self, tables: &IndexSet<NetId>) -> Result<Items<NetId>, Memory>
        requires { AreHeld self.now.nets tables.now.keys }
        ensures { IfOk result
            (λ outputs. Lists (IsWindowOutput self.now (has_id tables.now.keys)) outputs) }
    {
        let mut shown = Vec::new(*tables.allocator());
        for net in tables.as_slice() {
            if self.is_shown(tables, *net) {
                shown.push(*net)?;
            }
        }
        Ok(ascending(shown))
    }

    /// Whether a held net is seen, or read by a net that is none of these tables.
    fn is_shown(&self, tables: &IndexSet<NetId>, net: NetId) -> bool
        requires { IsTrue (is_held self.now.nets net.0) }
        ensures { MatchBool result
            (IsShown self.now (has_id tables.now.keys) net.0)
            (IsShown self.now (has_id tables.now.keys) net.0 → ⊥) }
    {
        self.is_seen(net) || some_outside(tables, self.readers(net))
    }

    /// The product of the numbers of values of a window's tables and inputs as listed. A number that isn't held counts
    /// nothing. It ends at the greatest number of its type. No memory.
    pub fn points(&self, w: &Window) -> u128
        ensures { result
            ≡ min (ways_of self.now.nets (w.now.tables ++ w.now.inputs)) (2 ^ 128 - 1) }
    {
        let ways = self.times_ways(1, w.tables.as_slice());
        self.times_ways(ways, w.inputs.as_slice())
    }

    /// The number times the numbers of values of these nets.
    fn times_ways(&self, start: u128, nets: &[NetId]) -> u128
        ensures { result ≡ min (start * ways_of self.now.nets nets.now) (2 ^ 128 - 1) }
    {
        let mut ways = start;
        for net in nets {
            ways = ways.saturating_mul(self.ways_at(*net).into());
        }
        ways
    }

    /// How many values a net has, and one where none is held.
    fn ways_at(&self, n: NetId) -> u16
        ensures { result ≡ ways_in (slot self.now.nets n.0) }
    {
        if self.holds(n) { self.values(n) } else { 1 }
    }

    /// The sum of the numbers of values of a window's tables and inputs as listed, each less one. A number that isn't held
    /// counts nothing. It ends at the greatest number of its type. No memory.
    pub fn levels(&self, w: &Window) -> u64
        ensures { result
            ≡ min (levels_of self.now.nets (w.now.tables ++ w.now.inputs)) (2 ^ 64 - 1) }
    {
        let levels = self.plus_levels(0, w.tables.as_slice());
        self.plus_levels(levels, w.inputs.as_slice())
    }

    /// The number and the numbers of values of these nets, each less one.
    fn plus_levels(&self, start: u64, nets: &[NetId]) -> u64
        ensures { result ≡ min (start + levels_of self.now.nets nets.now) (2 ^ 64 - 1) }
    {
        let mut levels = start;
        for net in nets {
            levels = levels.saturating_add(self.levels_at(*net).into());
        }
        levels
    }

    /// How many values a net has less one, and none where none is held.
    fn levels_at(&self, n: NetId) -> u16
        ensures { result ≡ values_in (slot self.now.nets n.0) - 1 }
    {
        if self.holds(n) {
            self.values(n).saturating_sub(1)
        } else {
            0
        }
    }
}

/// Whether the net is one of these tables.
fn is_inside(tables: &IndexSet<NetId>, net: NetId) -> bool
    ensures { result ≡ has_id tables.now.keys net.0 }
{
    tables.contains(&net)
}

/// Whether one of the nets is none of these tables.
fn some_outside(tables: &IndexSet<NetId>, nets: &[NetId]) -> bool
    ensures { result ≡ list_any (λ (m : NetId). not (has_id tables.now.keys m.0)) nets.now }
{
    nets.iter().any(|net| !is_inside(tables, *net))
}

/// Puts those of the nets that are none of these tables behind the others.
fn add_outside(
    read: &mut Vec<NetId>,
    tables: &IndexSet<NetId>,
    nets: &[NetId],
) -> Result<(), Memory>
    ensures { OnOk result
        (read.new.items
        ≡ read.old.items ++ filter (λ (m : NetId). not (has_id tables.now.keys m.0)) nets.now) }
{
    for net in nets {
        if !is_inside(tables, *net) {
            read.push(*net)?;
        }
    }
    Ok(())
}
