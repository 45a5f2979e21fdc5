//! The nets of models with instances, each once, in the order in which the model names them.
ghost use Rattle.std.specs.Prelude.{◌≡◌, IfOk, OnOk, map};
ghost use Rattle.mv_tree.specs.Places.{all_nets};
ghost use Rattle.mv_acyclic.specs.Driving.{with_named, with_names};
ghost use Rattle.mv_unfold.specs.Locals.{actuals_of, with_commands};

use mv_acyclic::{Naming, add_named, add_net, add_nets, front_before, namings};
use mv_base::{Items, Memory, NameSet};
use mv_design::{Bind, FileModel, Instance};
use std::alloc::Global;

/// The nets of each model.
pub fn local_nets(alloc: Global, models: &[FileModel]) -> Result<Items<NameSet>, Memory>
    ensures { IfOk result (λ nets. nets ≡ map all_nets models.now) }
{
    let mut nets = Items::with_room(alloc, models.len())?;
    for model in models {
        nets.push(nets_of(alloc, model)?)?;
    }
    Ok(nets)
}

/// The nets of a model.
#[tactic(auto, using(crate::proofs::Gathered::all_gathered))]
fn nets_of(alloc: Global, model: &FileModel) -> Result<NameSet, Memory>
    ensures { IfOk result (λ nets. nets ≡ all_nets model.now) }
{
    // as many as are driven, where each table has one output
    let room = model.inputs.len().saturating_add(model.latches.len());
    let mut nets = NameSet::with_room(alloc, room.saturating_add(model.tables.len()))?;
    add_nets(&mut nets, model.inputs.as_slice())?;
    add_nets(&mut nets, model.outputs.as_slice())?;
    let namings = namings(alloc, model)?;
    add_commands(&mut nets, model.instances.as_slice(), namings.as_slice())?;
    Ok(nets)
}

/// Adds the nets that instances and other commands name and that aren't there yet, by line.
fn add_commands(
    nets: &mut NameSet,
    instances: &[Instance],
    namings: &[Naming<'_>],
) -> Result<(), Memory>
    ensures { OnOk result (nets.new ≡ with_commands nets.old instances.now namings.now) }
{
    let mut done = 0;
    for instance in instances {
        let front = front_before(&namings[done..], instance.line);
        add_named(nets, front)?;
        add_actuals(nets, instance.binds.as_slice())?;
        done += front.len();
    }
    add_named(nets, &namings[done..])
}

/// Adds the nets to which formals are bound and that aren't there yet.
fn add_actuals(nets: &mut NameSet, binds: &[Bind]) -> Result<(), Memory>
    ensures { OnOk result (nets.new ≡ with_names nets.old (actuals_of binds.now)) }
{
    for bind in binds {
        add_net(nets, &bind.actual)?;
    }
    Ok(())
}
