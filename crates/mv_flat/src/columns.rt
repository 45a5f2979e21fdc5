//! The columns of tables by number.
ghost use Rattle.std.specs.Prelude.{◌≡◌, ◌≤◌, true, List, length, IfOk};
ghost use Rattle.mv_base.specs.declared.limits.TheConstants.{MAX_NETS};
ghost use Rattle.mv_design.specs.declared.design.Decl.{Decl};
ghost use Rattle.mv_flat.specs.Numbers.{columns_at};
ghost use Rattle.mv_flat.specs.Gathered.{counts_of};
ghost use Rattle.mv_flat.specs.Placed.{are_known};

use crate::values::count_of;
use mv_acyclic::Numbers;
use mv_base::Memory;
use mv_decl::Declared;
use mv_design::FileTable;
use mv_rows::Column;
use std::alloc::Global;

/// The input columns of the table. How many values each net has is told by its number, so that a net is looked up once a column.
pub fn columns(
    alloc: Global,
    names: &Numbers,
    counts: &[u16],
    table: &FileTable,
) -> Result<Vec<Column>, Memory>
    requires few { length names.now ≤ MAX_NETS }
    requires counts { length counts.now ≡ length names.now }
    requires known { are_known names.now table.now.inputs ≡ true }
    ensures { (ds : List Decl) → counts.now ≡ counts_of ds names.now
        → IfOk result (λ columns. columns.items ≡ columns_at ds names.now table.now) }
{
    let mut columns = Vec::with_capacity(alloc, table.inputs.len())?;
    for net in table.inputs.as_slice() {
        let number = names.of(net);
        columns.push(Column {
            net: number,
            count: counts[number.0 as usize],
        })?;
    }
    Ok(columns)
}

/// The input columns of the table, where the nets with numbers have no counts.
pub fn declared_columns(
    alloc: Global,
    decls: &Declared,
    names: &Numbers,
    table: &FileTable,
) -> Result<Vec<Column>, Memory>
    requires { length names.now ≤ MAX_NETS }
    ensures { IfOk result (λ columns. columns.items ≡ columns_at decls.now names.now table.now) }
{
    let mut columns = Vec::with_capacity(alloc, table.inputs.len())?;
    for net in table.inputs.as_slice() {
        columns.push(Column {
            net: names.of(net),
            count: count_of(decls, net),
        })?;
    }
    Ok(columns)
}
