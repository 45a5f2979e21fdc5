//! Names of a list, found by their bytes.
ghost use Rattle.std.specs.Prelude.{◌≡◌, ◌∷◌, ◌++◌, ℕ, List, [], map, length, IfOk, OnOk, unwrap_or};
ghost use Rattle.mv_walk.specs.Commands.{names_of};
ghost use Rattle.mv_unfold.specs.ByName.{FindsFirst, formals_bound, found_of};
ghost use Rattle.mv_design.specs.Values.{declared_of};

use mv_base::{Items, Memory, Name, NameSet};
use mv_design::{Bind, Decl, FileModel};
use std::alloc::Global;

/// The names of a list, each once, and of each the number of the first place where it stands.
#[derive(Drop)]
pub struct FirstPlaces {
    pub names: NameSet,
    pub numbers: Items<usize>,
}

impl FirstPlaces {
    /// Those of a list without names.
    fn new(alloc: Global) -> FirstPlaces
        ensures { FindsFirst result [] }
    {
        FirstPlaces {
            names: NameSet::new(alloc),
            numbers: Items::new(alloc),
        }
    }

    /// Adds the name at the next place of the list.
    fn add(&mut self, name: Name, place: usize) -> Result<(), Memory>
        ensures { OnOk result
            ((ws : List (List ℕ)) → FindsFirst self.old ws → place ≡ length ws
            → FindsFirst self.new (ws ++ name ∷ [])) }
    {
        if self.names.add(name)? {
            self.numbers.push(place)?;
        }
        Ok(())
    }

    /// Those of the names of models.
    pub fn of_models(alloc: Global, models: &[FileModel]) -> Result<FirstPlaces, Memory>
        ensures { IfOk result (λ names. FindsFirst names (names_of models.now)) }
    {
        let mut all = FirstPlaces::new(alloc);
        for place in 0..models.len() {
            all.add(models[place].name.copy()?, place)?;
        }
        Ok(all)
    }

    /// Those of the nets that are declared.
    pub fn of_decls(alloc: Global, decls: &[Decl]) -> Result<FirstPlaces, Memory>
        ensures { IfOk result (λ names. FindsFirst names (declared_of decls.now)) }
    {
        let mut all = FirstPlaces::new(alloc);
        for place in 0..decls.len() {
            all.add(decls[place].net.copy()?, place)?;
        }
        Ok(all)
    }

    /// Those of the formals that are bound.
    pub fn of_binds(alloc: Global, binds: &[Bind]) -> Result<FirstPlaces, Memory>
        ensures { IfOk result (λ names. FindsFirst names (formals_bound binds.now)) }
    {
        let mut all = FirstPlaces::new(alloc);
        for place in 0..binds.len() {
            all.add(binds[place].formal.copy()?, place)?;
        }
        Ok(all)
    }

    /// The first place of the name, if it is in the list.
    pub fn place(&self, name: &Name) -> Option<usize>
        ensures { result ≡ found_of self.now name.now }
    {
        match self.names.place(name) {
            Some(place) => match self.numbers.get(place) {
                Some(number) => Some(*number),
                None => Some(0),
            },
            None => None,
        }
    }

    /// The first place of the name; it is 0 where it isn't in the list.
    pub fn number(&self, name: &Name) -> usize
        ensures { result ≡ unwrap_or (found_of self.now name.now) 0 }
    {
        self.place(name).unwrap_or(0)
    }
}
