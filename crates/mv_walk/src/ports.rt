//! What a model shows to those round it, found by name.
ghost use Rattle.std.specs.Prelude.{◌≡◌, IfOk, OnOk};
ghost use Rattle.mv_base.specs.Names.{among};
ghost use Rattle.mv_design.specs.Values.{count_of};
ghost use Rattle.mv_tree.specs.Bound.{formals_of};
ghost use Rattle.mv_walk.specs.Commands.{Finds, HasAdded, HasNames, declared_count};

use crate::firsts::put_first;
use indexmap::IndexMap;
use mv_base::{Memory, Name, NameSet};
use mv_design::{Decl, FileModel};
use std::alloc::Global;
use std::marker::Model;

/// A model with its formals and the numbers of values of its nets, both found by name.
#[derive(Drop)]
pub struct Ports<'a> {
    model: &'a FileModel,
    formals: NameSet,
    counts: IndexMap<Name, usize>,
}

impl<'a> Model for Ports<'a> {
    ghost use Rattle.mv_walk.specs.Commands.{ArePorts};
    ghost use Rattle.mv_design.specs.declared.design.FileModel.{FileModel};

    ghost Value = { FileModel };

    ghost view = { λ p. p.model.now };

    ghost invariant = { λ p. ArePorts p.model.now p.formals p.counts };
}

impl<'a> Ports<'a> {
    /// Those of a model.
    pub fn of(alloc: Global, model: &'a FileModel) -> Result<Ports<'a>, Memory>
        ensures { IfOk result (λ ports. ports ≡ model.now) }
    {
        Ok(Ports {
            model,
            formals: formals(alloc, model)?,
            counts: counts(alloc, model.decls.as_slice())?,
        })
    }

    /// The model.
    pub fn model(&self) -> &'a FileModel
        ensures { result.now ≡ self.now }
    {
        self.model
    }

    /// Whether something may be bound to the net.
    pub fn is_formal(&self, net: &Name) -> bool
        ensures { result ≡ among net.now (formals_of self.now) }
    {
        self.formals.contains(net)
    }

    /// How many values the net has: two, if it isn't declared.
    #[tactic(auto, using(crate::proofs::Lookups::counting))]
    pub fn count(&self, net: &Name) -> usize
        ensures { result ≡ count_of self.now.decls net.now }
    {
        match self.declared(net) {
            Some(count) => count,
            None => 2,
        }
    }

    /// How many values the net has, if it is declared.
    fn declared(&self, net: &Name) -> Option<usize>
        ensures { result ≡ declared_count self.now.decls net.now }
    {
        self.counts.get(net).copied()
    }
}

/// The inputs and the outputs of a model.
#[tactic(auto, using(crate::proofs::Lookups::adding))]
fn formals(alloc: Global, model: &FileModel) -> Result<NameSet, Memory>
    ensures { IfOk result (λ formals. HasNames formals (formals_of model.now)) }
{
    let mut formals = NameSet::with_room(alloc, model.inputs.len())?;
    add_names(&mut formals, model.inputs.as_slice())?;
    add_names(&mut formals, model.outputs.as_slice())?;
    Ok(formals)
}

/// Adds these names.
#[tactic(auto, using(crate::proofs::Lookups::adding))]
fn add_names(set: &mut NameSet, names: &[Name]) -> Result<(), Memory>
    ensures { OnOk result (HasAdded set.old names.now set.new) }
{
    for name in names {
        set.add(name.copy()?)?;
    }
    Ok(())
}

/// How many values each declared net has.
fn counts(alloc: Global, decls: &[Decl]) -> Result<IndexMap<Name, usize>, Memory>
    ensures { IfOk result (λ counts. Finds counts (declared_count decls.now)) }
{
    let mut counts = IndexMap::new(alloc);
    for decl in decls {
        put_first(&mut counts, &decl.net, decl.values.len())?;
    }
    Ok(counts)
}
