//! What the commands of models make, looked at once a command.
ghost use Rattle.std.specs.Prelude.{◌≡◌, ◌<◌, map, length, IfOk};
ghost use Rattle.mv_tree.specs.Places.{all_nets};
ghost use Rattle.mv_walk.specs.Commands.{names_of};
ghost use Rattle.mv_unfold.specs.ByName.{FindsFirst};
ghost use Rattle.mv_unfold.specs.Commands.{AreCommands, AreCommandsOf, IsCommand};

use crate::by_name::FirstPlaces;
use crate::spans::{Span, own_spans};
use mv_base::{Items, Memory, NameSet};
use mv_design::{FileModel, Instance};
use std::alloc::Global;

/// What a command makes: an instance of the model with this number, of whose nets these are its own,
/// and the formals that it binds, by name.
#[derive(Drop)]
pub struct Command {
    pub model: usize,
    pub own: Items<Span>,
    pub formals: FirstPlaces,
}

/// What the commands of each model make.
pub fn commands(
    alloc: Global,
    models: &[FileModel],
    nets: &[NameSet],
) -> Result<Items<Items<Command>>, Memory>
    requires { nets.now ≡ map all_nets models.now }
    ensures { IfOk result (λ all. AreCommands models.now all) }
{
    let names = FirstPlaces::of_models(alloc, models)?;
    let mut all = Items::with_room(alloc, models.len())?;
    for model in models {
        all.push(commands_of(alloc, models, nets, &names, model.instances.as_slice())?)?;
    }
    Ok(all)
}

/// What the commands of a model make.
fn commands_of(
    alloc: Global,
    models: &[FileModel],
    nets: &[NameSet],
    names: &FirstPlaces,
    instances: &[Instance],
) -> Result<Items<Command>, Memory>
    requires some { 0 < length models.now }
    requires nets { nets.now ≡ map all_nets models.now }
    requires names { FindsFirst names.now (names_of models.now) }
    ensures { IfOk result (λ row. AreCommandsOf models.now instances.now row) }
{
    let mut row = Items::with_room(alloc, instances.len())?;
    for instance in instances {
        row.push(made_by(alloc, models, nets, names, instance)?)?;
    }
    Ok(row)
}

/// What a command makes.
fn made_by(
    alloc: Global,
    models: &[FileModel],
    nets: &[NameSet],
    names: &FirstPlaces,
    instance: &Instance,
) -> Result<Command, Memory>
    requires some { 0 < length models.now }
    requires nets { nets.now ≡ map all_nets models.now }
    requires names { FindsFirst names.now (names_of models.now) }
    ensures { IfOk result (λ command. IsCommand models.now instance.now command) }
{
    let model = names.number(&instance.model);
    let own = own_spans(alloc, &nets[model], instance.binds.as_slice())?;
    let formals = FirstPlaces::of_binds(alloc, instance.binds.as_slice())?;
    Ok(Command {
        model,
        own,
        formals,
    })
}
