ghost use Rattle.std.specs.Prelude.{◌≡◌, ◌≤◌, ◌++◌, not, nat_eq, is_some, IfOk, IsTrue};
ghost use Rattle.std.specs.List.{filter};
ghost use Rattle.mv_base.specs.declared.number.NetId.{NetId};
ghost use Rattle.mv_base.specs.declared.limits.TheConstants.{MAX_WINDOW_POINTS};
ghost use Rattle.mv_graph.specs.Nets.{has_id};
ghost use Rattle.mv_net.specs.Nets.{slot, table_in};
ghost use Rattle.mv_net.specs.Window.{ways_of};
ghost use Rattle.mv_flex.specs.Flex.{IsWindowOf};
ghost use Rattle.mv_flex.specs.Plans.{IsPlan};

use crate::space::Space;
use mv_base::{Items, Memory, NetId};
use mv_net::{Network, Window};
use std::alloc::Global;

/// How the points of a window are gone through: the net in question, the other tables, and the nets of the window. First
/// come the inputs and outputs, then the tables that aren't shown. Beside it are the net's fanins, and the net before its
/// fanins.
#[derive(Debug, Drop)]
pub struct Plan {
    pub net: NetId,
    pub others: Items<NetId>,
    pub nets: Items<NetId>,
    pub shown: Space,
    pub hidden: Space,
    pub fanins: Space,
    pub pairs: Space,
}

/// The plan for a net with a table and a window around it that isn't too wide.
pub fn plan_of(net: &Network, w: &Window, n: NetId) -> Result<Plan, Memory>
    requires table { IsTrue (is_some (table_in (slot net.now.nets n.0))) }
    requires window { IsWindowOf net.now n.0 w.now }
    requires few { ways_of net.now.nets (w.now.tables ++ w.now.inputs) ≤ MAX_WINDOW_POINTS }
    ensures { IfOk result (λ p. IsPlan net.now.nets w.now n.0 p) }
{
    net.well_formed();
    let alloc = w.tables.allocator();
    let shown = shown_nets(w)?;
    let hidden = hidden_nets(w)?;
    let fanins = net.fanins(n);
    Ok(Plan {
        net: n,
        others: other_tables(w, n)?,
        nets: joined(alloc, shown.as_slice(), hidden.as_slice())?,
        shown: Space::of(net, shown)?,
        hidden: Space::of(net, hidden)?,
        fanins: Space::of(net, joined(alloc, &[], fanins)?)?,
        pairs: Space::of(net, joined(alloc, &[n], fanins)?)?,
    })
}

/// The inputs and the outputs of the window.
fn shown_nets(w: &Window) -> Result<Items<NetId>, Memory>
    ensures { IfOk result
        (λ nets. nets
        ≡ w.now.inputs ++ filter (λ (m : NetId). has_id w.now.outputs m.0) w.now.tables) }
{
    let mut nets = w.inputs.copy()?;
    for table in w.tables.as_slice() {
        if is_among(&w.outputs, *table) {
            nets.push(*table)?;
        }
    }
    Ok(nets)
}

/// The tables of the window that are none of its outputs.
fn hidden_nets(w: &Window) -> Result<Items<NetId>, Memory>
    ensures { IfOk result
        (λ nets. nets ≡ filter (λ (m : NetId). not (has_id w.now.outputs m.0)) w.now.tables) }
{
    let mut nets = Items::new(w.tables.allocator());
    for table in w.tables.as_slice() {
        if !is_among(&w.outputs, *table) {
            nets.push(*table)?;
        }
    }
    Ok(nets)
}

/// The tables of the window but this one.
fn other_tables(w: &Window, n: NetId) -> Result<Items<NetId>, Memory>
    ensures { IfOk result
        (λ nets. nets ≡ filter (λ (m : NetId). not (nat_eq m.0 n.0)) w.now.tables) }
{
    let mut nets = Items::new(w.tables.allocator());
    for table in w.tables.as_slice() {
        if *table != n {
            nets.push(*table)?;
        }
    }
    Ok(nets)
}

/// Whether the net is one of these.
fn is_among(nets: &Items<NetId>, n: NetId) -> bool
    ensures { result ≡ has_id nets.now n.0 }
{
    nets.as_slice().iter().any(|net| *net == n)
}

/// The one list and the other behind it.
pub fn joined(alloc: Global, first: &[NetId], second: &[NetId]) -> Result<Items<NetId>, Memory>
    ensures { IfOk result (λ nets. nets ≡ first.now ++ second.now) }
{
    let mut nets = Vec::from_slice(alloc, first)?;
    nets.extend_from_slice(second)?;
    Ok(Items::of(nets))
}
