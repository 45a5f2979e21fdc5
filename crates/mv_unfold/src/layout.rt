//! A design with its instances, and what is known of the place of each by number: the root has the number 0, and the instance
//! at place k of the walk's list the number k + 1.
ghost use Rattle.std.specs.Prelude.{◌≡◌, ◌+◌, ◌<◌, ◌≤◌, ◌++◌, length, option_copied, IfOk, OnOk};
ghost use Rattle.mv_tree.specs.Places.{actual_of, all_nets};
ghost use Rattle.mv_walk.specs.Openings.{AreOpened};
ghost use Rattle.mv_unfold.specs.ByName.{FindsFirst, formals_bound};
ghost use Rattle.mv_unfold.specs.Laid.{IsLaid, model_numbers, laid_instance, places_of};
ghost use Rattle.mv_unfold.specs.Locals.{AreOwn};
ghost use Rattle.mv_unfold.specs.Placed.{model_at, place_at};

use crate::commands::{Command, commands};
use crate::gather::local_nets;
use crate::spans::{Span, own_spans};
use mv_base::{Items, Memory, Name, NameSet};
use mv_design::{Design, FileModel, Instance};
use mv_walk::Opened;
use std::alloc::Global;

/// A design, the list of its instances, the nets of each model, what each command makes, the number of the model of each place,
/// and the nets of the root.
#[derive(Drop)]
pub struct Layout<'a> {
    pub design: &'a Design,
    pub opened: &'a [Opened],
    pub nets: Items<NameSet>,
    pub commands: Items<Items<Command>>,
    pub models: Items<usize>,
    pub root: Items<Span>,
}

impl<'a> Layout<'a> {
    /// What is known of a design with these instances.
    pub fn of(alloc: Global, design: &'a Design, opened: &'a [Opened]) -> Result<Layout<'a>, Memory>
        requires rooted { design.now.root < length design.now.models }
        requires opened { AreOpened design.now opened.now }
        ensures laid { IfOk result (λ layout. IsLaid layout) }
        ensures design { IfOk result (λ layout. layout.design.now ≡ design.now) }
        ensures opened { IfOk result (λ layout. layout.opened.now ≡ opened.now) }
    {
        let models = design.models.as_slice();
        let nets = local_nets(alloc, models)?;
        let commands = commands(alloc, models, nets.as_slice())?;
        let root = own_spans(alloc, &nets.as_slice()[design.root as usize], &[])?;
        Ok(Layout {
            design,
            opened,
            nets,
            commands,
            models: model_list(alloc, design, opened)?,
            root,
        })
    }

    /// The number of the model of a place.
    pub fn model(&self, number: usize) -> usize
        requires laid { IsLaid self.now }
        requires number { number ≤ length self.now.opened.now }
        ensures below { result < length self.now.design.now.models }
        ensures is { (place_at (places_of self.now) number).model
            ≡ model_at self.now.design.now result }
    {
        self.models.as_slice()[number]
    }

    /// The model of a place.
    pub fn file(&self, number: usize) -> &FileModel
        requires laid { IsLaid self.now }
        requires number { number ≤ length self.now.opened.now }
        ensures { result.now ≡ (place_at (places_of self.now) number).model }
    {
        &self.design.models.as_slice()[self.model(number)]
    }

    /// The nets of the model of a place.
    pub fn nets(&self, number: usize) -> &NameSet
        requires laid { IsLaid self.now }
        requires number { number ≤ length self.now.opened.now }
        ensures { result.now ≡ all_nets (place_at (places_of self.now) number).model }
    {
        &self.nets.as_slice()[self.model(number)]
    }

    /// The nets that are at home in a place, by their numbers among those of its model.
    pub fn own(&self, number: usize) -> &[Span]
        requires laid { IsLaid self.now }
        requires number { number ≤ length self.now.opened.now }
        ensures { AreOwn (all_nets (place_at (places_of self.now) number).model)
            (place_at (places_of self.now) number).binds result.now }
    {
        if number == 0 {
            return self.root.as_slice();
        }
        self.command(number).own.as_slice()
    }

    /// What the command of an instance makes.
    fn command(&self, number: usize) -> &Command
        requires laid { IsLaid self.now }
        requires some { 0 < number }
        requires number { number ≤ length self.now.opened.now }
        ensures own { AreOwn (all_nets (place_at (places_of self.now) number).model)
            (place_at (places_of self.now) number).binds result.now.own }
        ensures formals { FindsFirst result.now.formals
            (formals_bound (laid_instance self.now number).binds) }
    {
        let opened = &self.opened[number - 1];
        let round = self.model(opened.round as usize);
        &self.commands.as_slice()[round].as_slice()[opened.instance as usize]
    }

    /// The command that makes an instance.
    pub fn instance(&self, number: usize) -> &Instance
        requires laid { IsLaid self.now }
        requires some { 0 < number }
        requires number { number ≤ length self.now.opened.now }
        ensures { result.now ≡ laid_instance self.now number }
    {
        let opened = &self.opened[number - 1];
        let round = self.model(opened.round as usize);
        &self.design.models.as_slice()[round].instances.as_slice()[opened.instance as usize]
    }

    /// The net to which a formal of an instance is bound.
    pub fn actual(&self, number: usize, net: &Name) -> Option<&Name>
        requires laid { IsLaid self.now }
        requires some { 0 < number }
        requires number { number ≤ length self.now.opened.now }
        ensures { option_copied result ≡ actual_of (laid_instance self.now number).binds net.now }
    {
        match self.command(number).formals.place(net) {
            Some(place) => Some(&self.instance(number).binds.as_slice()[place].actual),
            None => None,
        }
    }

    /// Adds the path of the nets of a place to what stands before it.
    pub fn add_path(&self, path: &mut Vec<u8>, number: usize) -> Result<(), Memory>
        requires laid { IsLaid self.now }
        requires number { number ≤ length self.now.opened.now }
        ensures { OnOk result
            (path.new.items ≡ path.old.items ++ (place_at (places_of self.now) number).path) }
    {
        if number == 0 {
            return Ok(());
        }
        self.add_path(path, self.opened[number - 1].round as usize)?;
        path.extend_from_slice(self.instance(number).name.bytes())?;
        path.push(b'.')?;
        Ok(())
    }
}

/// The numbers of the models of the root and of all instances.
fn model_list(alloc: Global, design: &Design, opened: &[Opened]) -> Result<Items<usize>, Memory>
    ensures { IfOk result (λ models. models ≡ model_numbers design.now opened.now) }
{
    let mut models = Items::new(alloc);
    models.push(design.root as usize)?;
    for instance in opened {
        models.push(instance.model)?;
    }
    Ok(models)
}
