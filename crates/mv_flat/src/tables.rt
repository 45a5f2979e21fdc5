//! The nets of tables.
ghost use Rattle.std.specs.Prelude.{◌≡◌, ◌+◌, ◌*◌, ◌<◌, ◌≤◌, ◌^◌, length, All, IfErr, IfOk, OnOk};
ghost use Rattle.mv_flat.specs.Built.{open_nets};
ghost use Rattle.mv_base.specs.declared.limits.TheConstants.{MAX_FLAT_NETS};
ghost use Rattle.mv_flat.specs.Gathered.{counts_of};
ghost use Rattle.mv_flat.specs.Marks.{AddsNets, TableNets};
ghost use Rattle.mv_flat.specs.Covers.{IsMadeTable};
ghost use Rattle.mv_flat.specs.Numbers.{choice_at, columns_at, mark_at};
ghost use Rattle.mv_flat.specs.Size.{FitsLimits};
ghost use Rattle.mv_flat.specs.Sized.{TellsLimit};
ghost use Rattle.mv_resets.specs.NetModels.{IsNetModel};
ghost use Rattle.mv_flat.specs.Placed.{ArePlaced, AddsTables};
ghost use Rattle.mv_flat.specs.Shared.{IsFrom};

use crate::columns::columns;
use crate::covers::{TableCovers, covers};
use crate::made::{put_made, put_mark};
use crate::nets::{open_nets, put_output, put_outputs};
use crate::shared::SharedTables;
use crate::size::Size;
use mv_acyclic::Numbers;
use mv_base::{Items, Memory};
use mv_decl::Declared;
use mv_design::{FileModel, FileTable};
use mv_fault::FlatFault;
use mv_net::FlatNet;
use std::alloc::Global;

/// The nets of the model, of as many nets as its file has: those of its inputs and of its latches, and those of its tables, table
/// after table. A table is let go behind its nets. The fault is the first limit that is passed, and no table behind the one with
/// which that comes is looked at.
#[tactic(auto, using(crate::proofs::Behinds::tabled))]
pub fn nets(
    alloc: Global,
    model: FileModel,
    names: &Numbers,
    counts: &[u16],
    file_nets: u64,
    shared: &mut SharedTables,
) -> Result<Items<Option<FlatNet>>, FlatFault>
    requires proper { IsNetModel model }
    requires placed { ArePlaced model names.now }
    requires counts { counts.now ≡ counts_of model.decls names.now }
    requires few { file_nets ≤ MAX_FLAT_NETS }
    requires shared { All (IsFrom shared.old) model.tables }
    ensures nets { IfOk result (λ nets. AddsTables model (open_nets model) nets) }
    ensures fits { OnOk result (FitsLimits file_nets model) }
    ensures fault { IfErr result (TellsLimit file_nets model) }
{
    let FileModel {
        inputs,
        decls,
        tables,
        latches,
        ..
    } = model;
    let decls = Declared::of(alloc, decls.as_slice())?;
    let mut nets = open_nets(alloc, &decls, inputs.as_slice(), latches.as_slice())?;
    let mut size = Size::of_nets(file_nets);
    let mut last = 0;
    for table in tables.into_vec() {
        let columns = columns(alloc, names, counts, &table)?;
        let covers = match covers(alloc, columns.as_slice(), names, &table, size, shared) {
            Ok(covers) => covers,
            Err(fault) => return Err(fault),
        };
        size = match size.with(&table, &covers) {
            Ok(size) => size,
            Err(fault) => return Err(fault),
        };
        put_table(&mut nets, &mut last, alloc, &decls, names, table, covers)?;
    }
    Ok(nets)
}

/// Adds the nets of a table with these covers, and lets the table go. `last` is the number of the last made name.
fn put_table(
    nets: &mut Items<Option<FlatNet>>,
    last: &mut u32,
    alloc: Global,
    decls: &Declared,
    names: &Numbers,
    table: FileTable,
    covers: TableCovers,
) -> Result<(), Memory>
    requires some { 0 < length table.outputs }
    requires made { IsMadeTable (columns_at decls.now names.now table) table
        (mark_at names.now table) (choice_at names.now table) covers }
    requires later { last.old + 2 * length names.now + 4 < 2 ^ 32 }
    ensures { OnOk result
        (AddsNets (TableNets decls.now names.now table) names.now last.old last.new nets.old nets.new) }
{
    put_nets(nets, last, alloc, decls, names, &table, covers)
}

/// Adds the nets of a table with these covers. `last` is the number of the last made name.
#[tactic(auto, using(crate::proofs::Behinds::adds_tables))]
fn put_nets(
    nets: &mut Items<Option<FlatNet>>,
    last: &mut u32,
    alloc: Global,
    decls: &Declared,
    names: &Numbers,
    table: &FileTable,
    covers: TableCovers,
) -> Result<(), Memory>
    requires some { 0 < length table.now.outputs }
    requires made { IsMadeTable (columns_at decls.now names.now table.now) table.now
        (mark_at names.now table.now) (choice_at names.now table.now) covers }
    requires later { last.old + 2 * length names.now + 4 < 2 ^ 32 }
    ensures { OnOk result
        (AddsNets (TableNets decls.now names.now table.now) names.now last.old last.new nets.old nets.new) }
{
    let outputs = table.outputs.as_slice();
    match covers {
        TableCovers::Single(flat) => {
            put_mark(nets, last, alloc, names, flat.mark)?;
            put_output(nets, alloc, decls, &outputs[0], flat.cover)
        }
        TableCovers::Joint(joint) => {
            put_mark(nets, last, alloc, names, joint.mark)?;
            put_made(nets, last, alloc, names, joint.values, joint.choice)?;
            put_outputs(nets, alloc, decls, outputs, joint.outputs)
        }
    }
}
