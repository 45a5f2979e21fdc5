//! The shape of a table's columns: their nets by their places among these in order.
ghost use Rattle.std.specs.Prelude.{◌≡◌, ◌<◌, ◌≤◌, ◌++◌, ◌∷◌, [], true, length, map, IfOk, All};
ghost use Rattle.mv_graph.specs.Nets.{has_id, ids_ascend, IsAscending};
ghost use Rattle.mv_rows.specs.declared.column.Column.{Column};
ghost use Rattle.mv_rows.specs.Flat.{with_mark};
ghost use Rattle.mv_shapes.specs.Shape.{coded, column_net, column_over, net_at, IsShape};

use mv_base::{Items, Memory, NetId};
use mv_rows::Column;
use std::alloc::Global;

/// The nets of a table's columns and of its mark, ascending, and the columns and the mark with their places there as nets.
#[derive(Drop)]
pub struct Shape {
    pub nets: Items<NetId>,
    pub columns: Vec<Column>,
    pub mark: NetId,
}

impl Shape {
    /// The shape of these columns and this mark.
    pub fn of(alloc: Global, columns: &[Column], mark: NetId) -> Result<Shape, Memory>
        ensures { IfOk result (λ shape. IsShape columns.now mark shape) }
    {
        let nets = nets_of(alloc, columns, mark)?;
        Ok(Shape {
            columns: placed(alloc, nets.as_slice(), columns)?,
            mark: place(nets.as_slice(), mark),
            nets,
        })
    }

    /// The columns and the mark as one word, which no others have.
    pub fn key(&self, alloc: Global) -> Result<Vec<u32>, Memory>
        ensures { IfOk result (λ key. key.items ≡ coded self.now.columns.items self.now.mark) }
    {
        let mut key = Vec::with_capacity(alloc, self.columns.len().saturating_mul(2))?;
        for column in self.columns.as_slice() {
            key.push(column.net.0)?;
            key.push(u32::from(column.count))?;
        }
        key.push(self.mark.0)?;
        Ok(key)
    }
}

/// The nets of the columns and the mark, ascending.
fn nets_of(alloc: Global, columns: &[Column], mark: NetId) -> Result<Items<NetId>, Memory>
    ensures { IfOk result
        (λ nets. IsAscending (has_id (map column_net columns.now ++ mark ∷ [])) nets) }
{
    let mut nets = all_nets(alloc, columns, mark)?;
    nets.sort_unstable();
    nets.dedup();
    Ok(Items::of(nets))
}

/// The nets of the columns, in their order, and behind them the mark.
fn all_nets(alloc: Global, columns: &[Column], mark: NetId) -> Result<Vec<NetId>, Memory>
    ensures { IfOk result (λ nets. nets.items ≡ map column_net columns.now ++ mark ∷ []) }
{
    let mut nets = Vec::with_capacity(alloc, columns.len().saturating_add(1))?;
    for column in columns {
        nets.push(column.net)?;
    }
    nets.push(mark)?;
    Ok(nets)
}

/// The columns with the places of their nets as nets.
fn placed(alloc: Global, nets: &[NetId], columns: &[Column]) -> Result<Vec<Column>, Memory>
    requires ascend { ids_ascend nets.now ≡ true }
    requires among { All (λ c. has_id nets.now c.net.0 ≡ true) columns.now }
    ensures are { IfOk result (λ made. map (column_over nets.now) made.items ≡ columns.now) }
    ensures low { IfOk result (λ made. All (λ c. c.net.0 < length nets.now) made.items) }
{
    let mut made = Vec::with_capacity(alloc, columns.len())?;
    for column in columns {
        made.push(Column {
            net: place(nets, column.net),
            count: column.count,
        })?;
    }
    Ok(made)
}

/// The place of the net among ascending ones.
fn place(nets: &[NetId], net: NetId) -> NetId
    requires ascend { ids_ascend nets.now ≡ true }
    requires among { has_id nets.now net.0 ≡ true }
    ensures low { result.0 < length nets.now }
    ensures is { net_at nets.now result.0 ≡ net }
{
    match nets.binary_search(&net) {
        Ok(place) => NetId(place as u32),
        Err(_place) => unreachable!(),
    }
}
