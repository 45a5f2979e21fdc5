//! The faults of a model's reset tables: one whose output is no latch, and a second one of a latch.
ghost use Rattle.std.specs.Prelude.{◌≡◌, [], map, IfOk};
ghost use Rattle.mv_fault.specs.Tells.{TellsFirst};
ghost use Rattle.mv_design.specs.Nets.{output_of};
ghost use Rattle.mv_acyclic.specs.Sound.{reset_owner_faults, model_reset_faults};

use crate::drivers::add_latches;
use mv_base::{Memory, Name, NameSet};
use mv_design::{FileModel, FileTable};
use mv_fault::FlatFault;
use std::alloc::Global;

/// Tells the first fault of the model's reset tables.
#[tactic(auto, using(crate::proofs::ResetFaults::resets_told))]
pub fn check_resets(alloc: Global, model: &FileModel) -> Result<(), FlatFault>
    ensures { TellsFirst FlatFault.Memory result (model_reset_faults model.now) }
{
    if model.resets.is_empty() {
        return Ok(());
    }
    let mut latches = NameSet::with_room(alloc, model.latches.len())?;
    add_latches(&mut latches, model.latches.as_slice())?;
    check_each(alloc, &latches, model.resets.as_slice())
}

/// Tells the first of these reset tables whose output is no latch, or that of an earlier one.
fn check_each(alloc: Global, latches: &NameSet, resets: &[FileTable]) -> Result<(), FlatFault>
    ensures { TellsFirst FlatFault.Memory result
        (reset_owner_faults latches.now [] (map output_of resets.now)) }
{
    let mut seen = NameSet::new(alloc);
    for reset in resets {
        let latch = output(alloc, reset)?;
        if !latches.contains(&latch) {
            return Err(FlatFault::NoLatch { net: latch });
        }
        if seen.contains(&latch) {
            return Err(FlatFault::ResetTwice { latch });
        }
        seen.add(latch)?;
    }
    Ok(())
}

/// The latch that a reset table names: its output.
pub fn output(alloc: Global, reset: &FileTable) -> Result<Name, Memory>
    ensures { IfOk result (λ name. name ≡ output_of reset.now) }
{
    match reset.outputs.get(0) {
        Some(output) => Ok(output.copy()?),
        None => Ok(Name::new(alloc, &[])?),
    }
}
