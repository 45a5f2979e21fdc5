//! The nets that are driven.
ghost use Rattle.std.specs.Prelude.{◌≡◌, map, IfOk, OnOk};
ghost use Rattle.std.specs.List.{flat_map};
ghost use Rattle.mv_design.specs.Nets.{drivers, nets_driven};
ghost use Rattle.mv_acyclic.specs.Driving.{with_names};
ghost use Rattle.mv_acyclic.specs.Sound.{IsDrivenOnce};

use mv_base::{Memory, Name, NameSet};
use mv_design::{FileLatch, FileModel, FileTable};
use std::alloc::Global;

/// The driven nets of a model whose nets are driven once each: its inputs, the outputs of its latches, and those of its
/// tables. There is room for so many from the start, and each is looked up once.
pub fn driven(alloc: Global, model: &FileModel, room: usize) -> Result<NameSet, Memory>
    requires { IsDrivenOnce model.now }
    ensures { IfOk result (λ driven. driven ≡ drivers model.now) }
{
    let mut driven = NameSet::with_room(alloc, room)?;
    add_drivers(&mut driven, model)?;
    Ok(driven)
}

/// Adds the driven nets of the model that aren't there yet: its inputs, the outputs of its latches, and those of its tables.
pub fn add_drivers(names: &mut NameSet, model: &FileModel) -> Result<(), Memory>
    ensures { OnOk result (names.new ≡ with_names names.old (drivers model.now)) }
{
    add_names(names, model.inputs.as_slice())?;
    add_latches(names, model.latches.as_slice())?;
    add_tables(names, model.tables.as_slice())?;
    Ok(())
}

/// Adds these names, of which few are there yet: each is looked up once.
pub fn add_names(names: &mut NameSet, nets: &[Name]) -> Result<(), Memory>
    ensures { OnOk result (names.new ≡ with_names names.old nets.now) }
{
    for net in nets {
        names.add(net.copy()?)?;
    }
    Ok(())
}

/// Adds the outputs of latches that aren't there yet.
pub fn add_latches(names: &mut NameSet, latches: &[FileLatch]) -> Result<(), Memory>
    ensures { OnOk result (names.new ≡ with_names names.old (map (λ l. l.output) latches.now)) }
{
    for latch in latches {
        names.add(latch.output.copy()?)?;
    }
    Ok(())
}

/// Adds the outputs of tables that aren't there yet.
fn add_tables(names: &mut NameSet, tables: &[FileTable]) -> Result<(), Memory>
    ensures { OnOk result (names.new ≡ with_names names.old (flat_map nets_driven tables.now)) }
{
    for table in tables {
        add_names(names, table.outputs.as_slice())?;
    }
    Ok(())
}
