//! The nets of a model by number.
ghost use Rattle.std.specs.Prelude.{◌≡◌, ◌≤◌, length, true, IfOk, OnOk, All};
ghost use Rattle.mv_base.specs.Names.{names_differ};
ghost use Rattle.mv_base.specs.declared.limits.TheConstants.{MAX_NETS};
ghost use Rattle.mv_resets.specs.NetModels.{HasLawfulValues, IsNetModel};
ghost use Rattle.mv_flat.specs.Placed.{IsPlacedTable};
ghost use Rattle.mv_flat.specs.Places.{made_places, net_places};
ghost use Rattle.mv_acyclic.specs.Driving.{with_names};
ghost use Rattle.mv_flat.specs.Gathered.{counts_of, with_places};
ghost use Rattle.mv_flat.specs.Shared.{IsFrom, KeepsOrigins};

use crate::mark::{choice_name, has_mark, is_joint, mark_name};
use crate::shared::SharedTables;
use crate::values::counts_of;
use mv_acyclic::{Numbers, add_latches, add_names, add_net};
use mv_base::{Memory, NameSet};
use mv_decl::Declared;
use mv_design::{FileModel, FileTable};
use std::alloc::Global;

/// Nets by number, and how many values each has.
#[derive(Drop)]
pub struct NumberedNets {
    pub names: Numbers,
    pub counts: Vec<u16>,
}

/// The nets of the model by number: the inputs, the outputs of the latches, then those of the tables in order. Before the outputs
/// of a table there is its mark, if it gets one, which stands here by a space and the first output's name, and its choice net, if
/// it has several outputs, which stands by two spaces and that name. `driven` are nets among which the columns of the tables are.
#[tactic(auto, using(crate::proofs::Names::with_places_of), unfolding(crate::specs::Places::net_places))]
pub fn numbered(
    alloc: Global,
    model: &FileModel,
    driven: &Numbers,
    shared: &mut SharedTables,
) -> Result<NumberedNets, Memory>
    requires proper { IsNetModel model.now }
    requires placed { All (IsPlacedTable model.now.decls driven.now) model.now.tables }
    requires few { length driven.now ≤ MAX_NETS }
    requires differ { names_differ (net_places model.now) ≡ true }
    requires shared { All (IsFrom shared.old) model.now.tables }
    ensures kept { OnOk result (KeepsOrigins shared.old shared.new) }
    ensures names { IfOk result (λ n. n.names ≡ net_places model.now) }
    ensures counts { IfOk result (λ n. n.counts.items ≡ counts_of model.now.decls n.names) }
{
    let decls = Declared::of(alloc, model.decls.as_slice())?;
    let mut names = NameSet::with_room(alloc, driven.len())?;
    add_names(&mut names, model.inputs.as_slice())?;
    add_latches(&mut names, model.latches.as_slice())?;
    let tables = model.tables.as_slice();
    add_places(alloc, &mut names, &decls, driven, tables, shared)?;
    let counts = counts_of(alloc, &decls, names.as_slice())?;
    Ok(NumberedNets {
        names: Numbers::of_names(names),
        counts,
    })
}

/// Adds the nets of tables: those that are made for them, and their outputs.
fn add_places(
    alloc: Global,
    names: &mut NameSet,
    decls: &Declared,
    driven: &Numbers,
    tables: &[FileTable],
    shared: &mut SharedTables,
) -> Result<(), Memory>
    requires proper { All HasLawfulValues decls.now }
    requires placed { All (IsPlacedTable decls.now driven.now) tables.now }
    requires few { length driven.now ≤ MAX_NETS }
    requires shared { All (IsFrom shared.old) tables.now }
    ensures kept { OnOk result (KeepsOrigins shared.old shared.new) }
    ensures names { OnOk result (names.new ≡ with_places decls.now names.old tables.now) }
{
    for table in tables {
        add_made(alloc, names, decls, driven, table, shared)?;
        add_names(names, table.outputs.as_slice())?;
    }
    Ok(())
}

/// Adds the nets that are made for the table: its mark, if it gets one, and its choice net, if it has several outputs.
fn add_made(
    alloc: Global,
    names: &mut NameSet,
    decls: &Declared,
    driven: &Numbers,
    table: &FileTable,
    shared: &mut SharedTables,
) -> Result<(), Memory>
    requires proper { All HasLawfulValues decls.now }
    requires placed { IsPlacedTable decls.now driven.now table.now }
    requires few { length driven.now ≤ MAX_NETS }
    requires from { IsFrom shared.old table.now }
    ensures kept { OnOk result (KeepsOrigins shared.old shared.new) }
    ensures names { OnOk result
        (names.new ≡ with_names names.old (made_places decls.now table.now)) }
{
    if has_mark(alloc, decls, driven, table, shared)? {
        add_net(names, &mark_name(alloc, &table.outputs.as_slice()[0])?)?;
    }
    if is_joint(table) {
        add_net(names, &choice_name(alloc, &table.outputs.as_slice()[0])?)?;
    }
    Ok(())
}
