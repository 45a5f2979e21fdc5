//! What the commands of a design say of themselves, found once a model.
ghost use Rattle.std.specs.Prelude.{◌≡◌, ◌<◌, length, IfOk};
ghost use Rattle.mv_walk.specs.Commands.{AreCommands, AreKnown, Finds, FindsModel, IsCommand, model_at, command_instance, place_named};

use crate::bindings::port_fault;
use crate::command::{Command, Found};
use crate::firsts::put_first;
use crate::ports::Ports;
use indexmap::IndexMap;
use mv_base::{Items, Memory, Name};
use mv_design::{Design, FileModel, Instance};
use std::alloc::Global;
use std::marker::Model;

/// A design with its models found by name, and with the commands of each model.
#[derive(Drop)]
pub struct Known<'a> {
    design: &'a Design,
    places: IndexMap<Name, usize>,
    commands: Items<Items<Command<'a>>>,
}

impl<'a> Model for Known<'a> {
    ghost use Rattle.mv_walk.specs.Commands.{AreKnown};
    ghost use Rattle.mv_design.specs.declared.design.Design.{Design};

    ghost Value = { Design };

    ghost view = { λ k. k.design.now };

    ghost invariant = { λ k. AreKnown k.design.now.models k.places k.commands };
}

impl<'a> Known<'a> {
    /// The commands of a design.
    pub fn of(alloc: Global, design: &'a Design) -> Result<Known<'a>, Memory>
        ensures { IfOk result (λ known. known ≡ design.now) }
    {
        let places = places(alloc, design.models.as_slice())?;
        let commands = all_commands(alloc, design.models.as_slice(), &places)?;
        Ok(Known {
            design,
            places,
            commands,
        })
    }

    /// The place of the first model with the name.
    pub fn place(&self, name: &Name) -> Option<usize>
        ensures { result ≡ place_named self.now.models name.now }
    {
        self.places.get(name).copied()
    }

    /// How many models there are.
    pub fn len(&self) -> usize
        ensures { result ≡ length self.now.models }
    {
        self.design.models.len()
    }

    /// The commands of the model at the place.
    pub fn commands(&self, place: usize) -> &[Command<'a>]
        requires { place < length self.now.models }
        ensures { AreCommands self.now.models (model_at self.now.models place) result.now }
    {
        self.commands.as_slice()[place].as_slice()
    }
}

/// The place of the first model of each name.
fn places(alloc: Global, models: &[FileModel]) -> Result<IndexMap<Name, usize>, Memory>
    ensures { IfOk result (λ places. Finds places (place_named models.now)) }
{
    let mut places = IndexMap::new(alloc);
    for (place, model) in models.iter().enumerate() {
        put_first(&mut places, &model.name, place)?;
    }
    Ok(places)
}

/// The ports of each model.
fn all_ports<'a>(alloc: Global, models: &'a [FileModel]) -> Result<Items<Ports<'a>>, Memory>
    ensures { IfOk result (λ ports. ports ≡ models.now) }
{
    let mut ports = Items::with_room(alloc, models.len())?;
    for model in models {
        ports.push(Ports::of(alloc, model)?)?;
    }
    Ok(ports)
}

/// The commands of each model.
fn all_commands<'a>(
    alloc: Global,
    models: &'a [FileModel],
    places: &IndexMap<Name, usize>,
) -> Result<Items<Items<Command<'a>>>, Memory>
    requires { Finds places.now (place_named models.now) }
    ensures { IfOk result (λ commands. AreKnown models.now places.now commands) }
{
    let ports = all_ports(alloc, models)?;
    let mut all = Items::with_room(alloc, models.len())?;
    for round in ports.as_slice() {
        all.push(commands_of(alloc, places, ports.as_slice(), round)?)?;
    }
    Ok(all)
}

/// The commands of one of these models.
fn commands_of<'a>(
    alloc: Global,
    places: &IndexMap<Name, usize>,
    models: &[Ports<'a>],
    round: &Ports<'a>,
) -> Result<Items<Command<'a>>, Memory>
    requires { Finds places.now (place_named models.now) }
    ensures { IfOk result (λ commands. AreCommands models.now round.now commands) }
{
    let instances = round.model().instances.as_slice();
    let mut commands = Items::with_room(alloc, instances.len())?;
    for instance in instances {
        commands.push(command_of(alloc, places, models, round, instance)?)?;
    }
    Ok(commands)
}

/// A command of one of these models.
fn command_of<'a>(
    alloc: Global,
    places: &IndexMap<Name, usize>,
    models: &[Ports<'a>],
    round: &Ports<'a>,
    instance: &'a Instance,
) -> Result<Command<'a>, Memory>
    requires { Finds places.now (place_named models.now) }
    ensures instance { IfOk result (λ command. command_instance command ≡ instance.now) }
    ensures is { IfOk result (λ command. IsCommand models.now round.now command) }
{
    let found = found_of(alloc, places, models, round, instance)?;
    Ok(Command { instance, found })
}

/// The model of a command of one of these models, if there is one of its name.
fn found_of<'a>(
    alloc: Global,
    places: &IndexMap<Name, usize>,
    models: &[Ports<'a>],
    round: &Ports<'a>,
    instance: &'a Instance,
) -> Result<Option<Found<'a>>, Memory>
    requires { Finds places.now (place_named models.now) }
    ensures { IfOk result (λ found. FindsModel models.now round.now instance.now found) }
{
    let Some(place) = places.get(&instance.model) else {
        return Ok(None);
    };
    let fault = port_fault(alloc, round, instance, &models[*place])?;
    Ok(Some(Found {
        place: *place,
        fault,
    }))
}
