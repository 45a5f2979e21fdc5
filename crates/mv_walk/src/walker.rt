//! A walk through the instances of a design, step by step.
ghost use Rattle.std.specs.Prelude.{◌≡◌, ◌<◌, ◌≤◌, ◌+◌, ◌-◌, ◌∷◌, ◌++◌, [], ℕ, length, IfOk, IfSome, OnOk};
ghost use Rattle.mv_base.specs.declared.limits.TheConstants.{MAX_INSTANCES as most_instances};
ghost use Rattle.mv_fault.specs.Tells.{TellsFirst};
ghost use Rattle.mv_design.specs.declared.design.Design.{Design};
ghost use Rattle.mv_tree.specs.Tree.{size_of};
ghost use Rattle.mv_walk.specs.Walk.{visit, visits, visits_at, visit_faults, visits_faults};
ghost use Rattle.mv_walk.specs.Trees.{tree_of};
ghost use Rattle.mv_walk.specs.Commands.{IsCommand, model_at, command_instance};
ghost use Rattle.mv_walk.specs.Openings.{openings};
ghost use Rattle.mv_walk.specs.Steps.{AreMarks, CanOpen, Entered, IsAt, IsMarked, IsStart, Left, Walked, level_at, level_inside, instance_model, opening};

use crate::Opened;
use crate::command::Command;
use crate::known::Known;
use crate::paths::told_fault;
use mv_base::{Items, MAX_DEPTH, MAX_INSTANCES, Memory};
use mv_design::{FileModel, Instance};
use mv_fault::{FlatFault, Which};
use std::alloc::Global;

/// How far a walk is: the instances so far; how many commands were looked at; the commands that made the instance in which it
/// is and those round that one; and for each model whether it is that of one of these, or of the root.
#[derive(Drop)]
pub struct Walker<'a> {
    pub list: Items<Opened>,
    count: usize,
    trail: Vec<&'a Instance>,
    marks: Vec<bool>,
}

impl<'a> Walker<'a> {
    /// The walk that begins in the root.
    pub fn at_root(alloc: Global, known: &Known<'a>, root: &FileModel) -> Result<Walker<'a>, Memory>
        ensures { IfOk result (λ walk. IsStart known.now root.now.name walk) }
    {
        Ok(Walker {
            list: Items::new(alloc),
            count: 0,
            trail: Vec::new(alloc),
            marks: root_marks(alloc, known, root)?,
        })
    }

    /// Walks through what is inside the instance in which the walk is, which has this model and this number, if no more than so
    /// many levels are below it.
    #[cycle(walk)]
    pub fn inside(
        &mut self,
        alloc: Global,
        known: &Known<'a>,
        levels: usize,
        model: usize,
        number: u32,
    ) -> Result<(), FlatFault>
        requires at { IsAt known.now levels self.old }
        requires model { model < length known.now.models }
        ensures faults { let level = level_at known.now model self.old in
            TellsFirst FlatFault.Memory result
            (visits_faults known.now self.old.count (visits levels known.now level)) }
        ensures done { let tree = tree_of levels known.now (model_at known.now.models model) in
            let listed = openings known.now number (length self.old.list + 1) 0 tree in
            OnOk result (Walked listed (size_of tree) self.old self.new) }
    {
        self.count = self.look(alloc, known, model)?;
        for (at, command) in known.commands(model).iter().enumerate() {
            self.open(alloc, known, levels, number, at as u32, command)?;
        }
        Ok(())
    }

    /// Goes into the instance that the command at this place makes, walks through what is inside it, and goes out of it.
    #[cycle(walk)]
    fn open(
        &mut self,
        alloc: Global,
        known: &Known<'a>,
        levels: usize,
        number: u32,
        instance: u32,
        command: &Command<'a>,
    ) -> Result<(), FlatFault>
        requires at { IsAt known.now levels self.old }
        requires deep { 0 < levels }
        requires looked { length self.old.list < self.old.count }
        requires command { CanOpen known.now self.old command.now }
        ensures faults { let level =
            level_inside known.now self.old (command_instance command.now) in
            TellsFirst FlatFault.Memory result
            (visits_faults known.now self.old.count (visits (levels - 1) known.now level)) }
        ensures done { let tree =
            tree_of (levels - 1) known.now
            (instance_model known.now (command_instance command.now)) in
            let listed =
            opening known.now number (length self.old.list + 1) instance
            (command_instance command.now) tree in
            OnOk result (Walked listed (size_of tree) self.old self.new) }
    {
        let found = command.found.unwrap();
        let opened = Opened {
            model: found.place,
            round: number,
            instance,
        };
        self.enter(command.instance, opened)?;
        let next = self.list.len() as u32;
        self.inside(alloc, known, levels - 1, found.place, next)?;
        self.leave(found.place);
        Ok(())
    }

    /// Looks at the commands of the instance in which the walk is, and answers how many were looked at with them.
    fn look(&self, alloc: Global, known: &Known<'a>, model: usize) -> Result<usize, FlatFault>
        requires marked { IsMarked known.now self.now }
        requires model { model < length known.now.models }
        requires few { self.now.count ≤ most_instances }
        ensures faults { let level = level_at known.now model self.now in
            TellsFirst FlatFault.Memory result
            (visits_faults known.now self.now.count (visits_at level)) }
        ensures count { IfOk result
            (λ count. count ≡ self.now.count + length (model_at known.now.models model).instances) }
        ensures few { IfOk result (λ count. count ≤ most_instances) }
    {
        let mut count = self.count;
        for command in known.commands(model) {
            self.check(alloc, count, command)?;
            count += 1;
        }
        Ok(count)
    }

    /// Looks at a command of the instance in which the walk is, behind so many others.
    fn check(&self, alloc: Global, count: usize, command: &Command<'a>) -> Result<(), FlatFault>
        requires { IfSome command.now.found (λ found. found.place < length self.now.marks.items) }
        ensures { (d : Design) (model : ℕ) → IsMarked d self.now
            → IsCommand d.models (model_at d.models model) command.now
            → TellsFirst FlatFault.Memory result (visit_faults d count
            (visit (level_at d model self.now) (command_instance command.now))) }
    {
        let Some(found) = command.found else {
            return Err(FlatFault::NoSuchModel {
                model: command.instance.model.copy()?,
            });
        };
        if self.marks[found.place] {
            return Err(FlatFault::Recursive {
                model: command.instance.model.copy()?,
            });
        }
        if self.trail.len() as u64 >= MAX_DEPTH {
            return Err(FlatFault::Limit {
                which: Which::Depth,
                number: MAX_DEPTH + 1,
            });
        }
        if count as u64 >= MAX_INSTANCES {
            return Err(FlatFault::Limit {
                which: Which::Instances,
                number: MAX_INSTANCES + 1,
            });
        }
        match &found.fault {
            Some(fault) => Err(told_fault(alloc, self.trail.as_slice(), command.instance, fault)?),
            None => Ok(()),
        }
    }

    /// Goes into an instance.
    fn enter(&mut self, instance: &'a Instance, opened: Opened) -> Result<(), Memory>
        requires { opened.model < length self.old.marks.items }
        ensures { OnOk result (Entered self.old self.new instance.now opened) }
    {
        self.list.push(opened)?;
        self.trail.push(instance)?;
        self.marks[opened.model] = true;
        Ok(())
    }

    /// Goes out of an instance of the model at the place.
    fn leave(&mut self, place: usize)
        requires { place < length self.old.marks.items }
        ensures { Left self.old self.new place }
    {
        let _instance = self.trail.pop();
        self.marks[place] = false;
    }
}

/// The marks where the root alone is open: of the first model of its name.
#[tactic(auto, using(crate::proofs::Trails::rooted))]
fn root_marks(alloc: Global, known: &Known, root: &FileModel) -> Result<Vec<bool>, Memory>
    ensures { IfOk result (λ marks. AreMarks known.now.models (root.now.name ∷ []) marks.items) }
{
    let mut marks = vec![in alloc; false; known.len()]?;
    let Some(place) = known.place(&root.name) else {
        return Ok(marks);
    };
    marks[place] = true;
    Ok(marks)
}
