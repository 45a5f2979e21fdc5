//! Other rows for nets, and how they change places with those that the nets have.
ghost use Rattle.std.specs.Prelude.{◌≡◌, ◌<◌, ◌≤◌, true, length, map, slice_set, All, IfOk};
ghost use Rattle.mv_base.specs.declared.number.NetId.{NetId};
ghost use Rattle.mv_graph.specs.Nets.{row, all_differ};
ghost use Rattle.mv_dag.specs.declared.new_rows.NewRow.{NewRow};
ghost use Rattle.mv_dag.specs.Rows.{nets_of};
ghost use Rattle.mv_dag.specs.Changing.{blank, new_row_at, old_of, IsExchanged};

use mv_base::{Items, Memory, NetId};
use std::alloc::Global;

/// Another list of fanins for a net.
#[derive(Drop)]
pub struct NewRow {
    /// The net.
    pub net: NetId,
    /// What it reads from then on.
    pub fanins: Items<NetId>,
}

/// Rows without fanins for the same nets.
pub fn blank_rows(alloc: Global, rows: &[NewRow]) -> Result<Items<NewRow>, Memory>
    ensures { IfOk result (λ blanks. blanks ≡ map blank rows.now) }
{
    let mut blanks = Items::new(alloc);
    for row in rows {
        blanks.push(NewRow {
            net: row.net,
            fanins: Items::new(alloc),
        })?;
    }
    Ok(blanks)
}

/// The row at a place and the one that its net has change places. It takes no memory.
pub fn exchange_row(fanins: &mut Items<Items<NetId>>, rows: &mut Items<NewRow>, place: usize)
    requires inside { place < length rows.old }
    requires net { (new_row_at rows.old place).net.0 < length fanins.old }
    ensures fanins { fanins.new
        ≡ slice_set fanins.old (new_row_at rows.old place).net.0 (new_row_at rows.old place).fanins }
    ensures rows { rows.new
        ≡ slice_set rows.old place (old_of fanins.old (new_row_at rows.old place)) }
{
    let alloc = fanins.allocator();
    let net = rows.as_slice()[place].net;
    let none = NewRow {
        net,
        fanins: Items::new(alloc),
    };
    let new = rows.replace(place, none);
    let old = fanins.replace(net.0 as usize, new.fanins);
    rows.replace(place, NewRow { net, fanins: old });
}

/// The first so many rows and those that their nets have change places; again, they change back. It takes no memory.
pub fn exchange(fanins: &mut Items<Items<NetId>>, rows: &mut Items<NewRow>, count: usize)
    requires inside { count ≤ length rows.old }
    requires nets { All (λ (r : NewRow). r.net.0 < length fanins.old) rows.old }
    requires once { all_differ (nets_of rows.old) ≡ true }
    ensures { IsExchanged count fanins.old fanins.new rows.old rows.new }
{
    for place in 0..count {
        exchange_row(fanins, rows, place);
    }
}
