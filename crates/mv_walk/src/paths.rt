//! Faults with where the instances stand.
ghost use Rattle.std.specs.Prelude.{◌≡◌, ◌++◌, [], map, IfOk, OnOk};
ghost use Rattle.mv_tree.specs.Places.{path_in};
ghost use Rattle.mv_walk.specs.Misfits.{misfit_of, misfit_fault};
ghost use Rattle.mv_walk.specs.Steps.{path_from};

use crate::command::PortFault;
use mv_base::{Memory, Name};
use mv_design::Instance;
use mv_fault::FlatFault;
use std::alloc::Global;

/// The fault of an instance's bindings, where these instances stand round it.
pub fn told_fault(
    alloc: Global,
    round: &[&Instance],
    instance: &Instance,
    fault: &PortFault,
) -> Result<FlatFault, Memory>
    ensures { let outer = path_from [] (map (λ p. p.now) round.now) in
        IfOk result
        (λ f. f ≡ misfit_fault outer (path_in outer instance.now.name) (misfit_of fault.now)) }
{
    let outer = path(alloc, round)?;
    let mut inner = Vec::from_slice(alloc, outer.as_slice())?;
    add_step(&mut inner, instance)?;
    Ok(match fault {
        PortFault::NoFormal(bind) => FlatFault::NoFormal {
            formal: name_in(alloc, inner.as_slice(), &bind.formal)?,
        },
        PortFault::PortValues(bind) => FlatFault::PortValues {
            formal: name_in(alloc, inner.as_slice(), &bind.formal)?,
            actual: name_in(alloc, outer.as_slice(), &bind.actual)?,
        },
        PortFault::PortOpen(net) => FlatFault::PortOpen {
            formal: name_in(alloc, inner.as_slice(), net)?,
        },
    })
}

/// The path of the nets of an instance, given with those round it.
fn path(alloc: Global, instances: &[&Instance]) -> Result<Vec<u8>, Memory>
    ensures { IfOk result (λ path. path.items ≡ path_from [] (map (λ p. p.now) instances.now)) }
{
    let mut path = Vec::new(alloc);
    for instance in instances {
        add_step(&mut path, instance)?;
    }
    Ok(path)
}

/// Adds the name of an instance, and a full stop.
fn add_step(path: &mut Vec<u8>, instance: &Instance) -> Result<(), Memory>
    ensures { OnOk result (path.new.items ≡ path_in path.old.items instance.now.name) }
{
    path.extend_from_slice(instance.name.bytes())?;
    path.push(b'.')?;
    Ok(())
}

/// The name of a net behind a path.
fn name_in(alloc: Global, path: &[u8], net: &Name) -> Result<Name, Memory>
    ensures { IfOk result (λ name. name ≡ path.now ++ net.now) }
{
    let mut bytes = Vec::from_slice(alloc, path)?;
    bytes.extend_from_slice(net.bytes())?;
    Name::new(alloc, bytes.as_slice())
}
