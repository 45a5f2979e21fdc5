//! The walk.
ghost use Rattle.std.specs.Prelude.{◌≡◌, IfOk};
ghost use Rattle.mv_base.specs.declared.limits.TheConstants.{MAX_DEPTH as limit};
ghost use Rattle.mv_fault.specs.Tells.{TellsFirst};
ghost use Rattle.mv_walk.specs.Walk.{walk_faults};
ghost use Rattle.mv_walk.specs.Openings.{AreOpened};

use crate::Opened;
use crate::known::Known;
use crate::walker::Walker;
use mv_base::{Items, MAX_DEPTH};
use mv_design::Design;
use mv_fault::FlatFault;
use std::alloc::Global;

/// The instances of the design in unfolding order, each before those inside it; or the first fault of a command that makes one.
/// All commands of an instance are looked at before what is inside the first. What a command says of its own is looked at once a
/// model, however often the model is instanced, so that the time grows with the file and the number of instances.
pub fn walk(alloc: Global, design: &Design) -> Result<Items<Opened>, FlatFault>
    ensures faults { TellsFirst FlatFault.Memory result (walk_faults design.now) }
    ensures opened { IfOk result (λ list. AreOpened design.now list) }
{
    let root = design.root as usize;
    let Some(model) = design.models.get(root) else {
        return Ok(Items::new(alloc));
    };
    if model.instances.is_empty() {
        return Ok(Items::new(alloc));
    }
    let known = Known::of(alloc, design)?;
    let mut walker = Walker::at_root(alloc, &known, model)?;
    walker.inside(alloc, &known, deepest(), root, 0)?;
    Ok(walker.list)
}

/// How many levels there may be.
fn deepest() -> usize
    ensures { result ≡ limit }
{
    MAX_DEPTH as usize
}
