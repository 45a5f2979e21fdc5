//! The first fault of an instance's bindings.
ghost use Rattle.std.specs.Prelude.{◌≡◌, IfOk};
ghost use Rattle.std.specs.List.{flat_map};
ghost use Rattle.mv_base.specs.Names.{among};
ghost use Rattle.mv_fault.specs.Tells.{first};
ghost use Rattle.mv_walk.specs.Commands.{HasBound};
ghost use Rattle.mv_walk.specs.Misfits.{bind_misfits, misfit_in, misfits, open_misfits};

use crate::command::PortFault;
use crate::ports::Ports;
use mv_base::{Items, Memory, Name, NameSet};
use mv_design::{Bind, Instance};
use std::alloc::Global;

/// The first fault of the bindings of an instance in a model, if they don't fit its own: of each binding in order, and then of
/// each input.
pub fn port_fault<'a>(
    alloc: Global,
    round: &Ports<'a>,
    instance: &'a Instance,
    ports: &Ports<'a>,
) -> Result<Option<PortFault<'a>>, Memory>
    ensures { IfOk result
        (λ fault. misfit_in fault ≡ first (misfits round.now instance.now ports.now)) }
{
    match bind_fault(round, instance.binds.as_slice(), ports) {
        Some(fault) => Ok(Some(fault)),
        None => {
            let bound = bound_formals(alloc, instance.binds.as_slice())?;
            Ok(open_fault(&bound, ports.model().inputs.as_slice()))
        }
    }
}

/// The first binding that doesn't fit.
fn bind_fault<'a>(round: &Ports<'a>, binds: &'a [Bind], ports: &Ports<'a>) -> Option<PortFault<'a>>
    ensures { misfit_in result ≡ first (flat_map (bind_misfits round.now ports.now) binds.now) }
{
    for bind in binds {
        if !ports.is_formal(&bind.formal) {
            return Some(PortFault::NoFormal(bind));
        }
        if ports.count(&bind.formal) != round.count(&bind.actual) {
            return Some(PortFault::PortValues(bind));
        }
    }
    None
}

/// The formals that are bound.
fn bound_formals(alloc: Global, binds: &[Bind]) -> Result<NameSet, Memory>
    ensures { IfOk result (λ bound. HasBound binds.now bound) }
{
    let mut bound = NameSet::with_room(alloc, binds.len())?;
    for bind in binds {
        bound.add(bind.formal.copy()?)?;
    }
    Ok(bound)
}

/// The first input that isn't bound.
fn open_fault<'a>(bound: &NameSet, inputs: &'a [Name]) -> Option<PortFault<'a>>
    ensures { misfit_in result
        ≡ first (flat_map (open_misfits (λ net. among net bound.now)) inputs.now) }
{
    for input in inputs {
        if !bound.contains(input) {
            return Some(PortFault::PortOpen(input));
        }
    }
    None
}
