//! The columns of each net's table by number.
ghost use Rattle.std.specs.Prelude.{◌≡◌, ◌≤◌, ◌++◌, [], length, replicate, true, IfOk, IfSome, OnOk};
ghost use Rattle.std.specs.Bool.{OnTrue};
ghost use Rattle.std.specs.List.{flat_map, list_all};
ghost use Rattle.mv_base.specs.declared.limits.TheConstants.{MAX_FLAT_NETS};
ghost use Rattle.mv_design.specs.Nets.{drivers};
ghost use Rattle.mv_acyclic.specs.Columns.{columns_by_net, driven_columns, table_columns};
ghost use Rattle.mv_acyclic.specs.Glance.{inputs_known};

use crate::Numbers;
use mv_base::{Items, MAX_FLAT_NETS, Memory, NetId};
use mv_design::{FileModel, FileTable};
use std::alloc::Global;

/// The columns of each driven net by number: none for an input and for the output of a latch.
#[tactic(auto, using(crate::proofs::Latches::few_open))]
pub fn columns(
    alloc: Global,
    numbers: &Numbers,
    model: &FileModel,
) -> Result<Items<Items<NetId>>, Memory>
    requires numbers { numbers.now ≡ drivers model.now }
    requires few { length numbers.now ≤ MAX_FLAT_NETS }
    ensures { IfOk result (λ columns. columns ≡ columns_by_net numbers.now model.now) }
{
    let mut columns = Items::with_room(alloc, numbers.len())?;
    add_open(
        alloc,
        &mut columns,
        model.inputs.len() + model.latches.len(),
    )?;
    add_tables(alloc, &mut columns, numbers, model.tables.as_slice())?;
    Ok(columns)
}

/// No columns for each of so many nets.
fn add_open(alloc: Global, columns: &mut Items<Items<NetId>>, count: usize) -> Result<(), Memory>
    ensures { OnOk result (columns.new ≡ columns.old ++ replicate count []) }
{
    for _net in 0..count {
        columns.push(Items::new(alloc))?;
    }
    Ok(())
}

/// Adds the columns of each table.
fn add_tables(
    alloc: Global,
    columns: &mut Items<Items<NetId>>,
    numbers: &Numbers,
    tables: &[FileTable],
) -> Result<(), Memory>
    requires { length numbers.now ≤ MAX_FLAT_NETS }
    ensures { OnOk result
        (columns.new ≡ columns.old ++ flat_map (table_columns numbers.now) tables.now) }
{
    for table in tables {
        add_table(alloc, columns, numbers, table)?;
    }
    Ok(())
}

/// Adds the columns of each net that the table drives.
fn add_table(
    alloc: Global,
    columns: &mut Items<Items<NetId>>,
    numbers: &Numbers,
    table: &FileTable,
) -> Result<(), Memory>
    requires { length numbers.now ≤ MAX_FLAT_NETS }
    ensures { OnOk result (columns.new ≡ columns.old ++ table_columns numbers.now table.now) }
{
    for _output in table.outputs.as_slice() {
        columns.push(numbers.list(alloc, table.inputs.as_slice())?)?;
    }
    Ok(())
}

/// The columns of each driven net by number, if all inputs of tables have numbers. Where there are none nothing is said.
#[tactic(auto, using(crate::proofs::Latches::few_open))]
pub fn known_columns(
    alloc: Global,
    numbers: &Numbers,
    model: &FileModel,
) -> Result<Option<Items<Items<NetId>>>, Memory>
    requires numbers { numbers.now ≡ drivers model.now }
    requires few { length numbers.now ≤ MAX_FLAT_NETS }
    ensures columns { IfOk result
        (λ found. IfSome found (λ columns. columns ≡ columns_by_net numbers.now model.now)) }
    ensures known { IfOk result
        (λ found. IfSome found
        (λ columns. list_all (inputs_known numbers.now) model.now.tables ≡ true)) }
{
    let mut columns = Items::with_room(alloc, numbers.len())?;
    add_open(
        alloc,
        &mut columns,
        model.inputs.len() + model.latches.len(),
    )?;
    for table in model.tables.as_slice() {
        if !add_known(alloc, &mut columns, numbers, table)? {
            return Ok(None);
        }
    }
    Ok(Some(columns))
}

/// Adds the columns of each net that the table drives, if it drives one and all its inputs have numbers. Where the answer is no
/// nothing is said of what is added.
fn add_known(
    alloc: Global,
    columns: &mut Items<Items<NetId>>,
    numbers: &Numbers,
    table: &FileTable,
) -> Result<bool, Memory>
    requires { length numbers.now ≤ MAX_FLAT_NETS }
    ensures columns { IfOk result (λ yes. OnTrue yes
        (columns.new ≡ columns.old ++ table_columns numbers.now table.now)) }
    ensures known { IfOk result (λ yes. OnTrue yes (inputs_known numbers.now table.now ≡ true)) }
{
    if table.outputs.is_empty() {
        return Ok(false);
    }
    for _output in table.outputs.as_slice() {
        let Some(inputs) = numbers.known(alloc, table.inputs.as_slice())? else {
            return Ok(false);
        };
        columns.push(inputs)?;
    }
    Ok(true)
}
