ghost use Rattle.std.specs.Prelude.{◌≡◌, IfOk};
ghost use Rattle.mv_rows.specs.Columns.{placed, IsColumnOrder};
ghost use Rattle.mv_rows.specs.Cubes.{AreColumns, IsFrame};

use mv_base::{Items, Memory, NetId};
use std::alloc::Global;

/// An input column of a table: its net, and how many values the net has.
#[derive(Clone, Copy, Debug)]
pub struct Column {
    pub net: NetId,
    pub count: u16,
}

/// A column, and the place of its sets in the rows.
#[derive(Clone, Copy, Debug)]
pub struct Placed {
    pub column: Column,
    pub place: usize,
}

/// The columns of a table as the file has them, and in an order in which their nets ascend.
#[derive(Drop)]
pub struct Frame {
    pub columns: Items<Column>,
    pub order: Items<Placed>,
}

impl Frame {
    /// The frame of these columns.
    pub fn new(alloc: Global, columns: &[Column]) -> Result<Frame, Memory>
        requires { AreColumns columns.now }
        ensures frame { IfOk result (λ frame. IsFrame frame) }
        ensures columns { IfOk result (λ frame. frame.columns ≡ columns.now) }
    {
        let order = ordered(alloc, columns)?;
        Ok(Frame {
            columns: Items::of(Vec::from_slice(alloc, columns)?),
            order: Items::of(order),
        })
    }
}

/// The columns by ascending net.
#[tactic(auto, using(crate::proofs::Orders::IsColumnOrder_from_sort))]
fn ordered(alloc: Global, columns: &[Column]) -> Result<Vec<Placed>, Memory>
    ensures { IfOk result (λ order. IsColumnOrder columns.now order.items) }
{
    let mut order = with_places(alloc, columns)?;
    order.sort_unstable_by_key(|placed| placed.column.net.0);
    Ok(order)
}

/// The columns with their places, in order.
#[tactic(auto, using(crate::proofs::Orders::placed_more))]
fn with_places(alloc: Global, columns: &[Column]) -> Result<Vec<Placed>, Memory>
    ensures { IfOk result (λ order. order.items ≡ placed 0 columns.now) }
{
    let mut order = Vec::with_capacity(alloc, columns.len())?;
    for (place, column) in columns.iter().enumerate() {
        order.push(Placed {
            column: *column,
            place,
        })?;
    }
    Ok(order)
}
