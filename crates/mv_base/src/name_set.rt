ghost use Rattle.std.specs.Prelude.{◌≡◌, ◌∷◌, ◌++◌, [], if◌then◌else◌, not, length, IfOk, OnErr};
ghost use Rattle.mv_base.specs.Names.{among, place_of, IsDistinct};

use crate::{Memory, Name};
use indexmap::IndexSet;
use std::alloc::Global;
use std::marker::Model;

/// Distinct names in the order in which they came, found by their bytes.
#[derive(Drop)]
pub struct NameSet {
    set: IndexSet<Name>,
}

impl Model for NameSet {
    ghost use Rattle.std.specs.Prelude.{List, ℕ};

    ghost Value = { List (List ℕ) };

    ghost view = { λ n. n.set.keys };
}

impl NameSet {
    /// The set without names. It takes no memory.
    pub fn new(alloc: Global) -> Self
        ensures { result ≡ [] }
    {
        NameSet {
            set: IndexSet::new(alloc),
        }
    }

    /// The set without names, with room for so many.
    pub fn with_room(alloc: Global, room: usize) -> Result<Self, Memory>
        ensures { IfOk result (λ set. set ≡ []) }
    {
        Ok(NameSet {
            set: IndexSet::with_capacity(alloc, room)?,
        })
    }

    /// Whether the name is in the set.
    pub fn contains(&self, name: &Name) -> bool
        ensures { result ≡ among name.now self.now }
    {
        self.set.contains(name)
    }

    /// The place of the name in the order, if it is in the set.
    pub fn place(&self, name: &Name) -> Option<usize>
        ensures { result ≡ place_of name.now self.now }
    {
        self.set.get_index_of(name)
    }

    /// Adds the name at the end unless it is there, and answers whether it was new. On an error the set is as before.
    pub fn add(&mut self, name: Name) -> Result<bool, Memory>
        ensures fresh { IfOk result (λ fresh. fresh ≡ not (among name self.old)) }
        ensures ok { IfOk result
            (λ fresh. self.new
            ≡ (if among name self.old then self.old else self.old ++ name ∷ [])) }
        ensures err { OnErr result (self.new ≡ self.old) }
    {
        Ok(self.set.insert(name)?)
    }

    /// The names in order.
    pub fn as_slice(&self) -> &[Name]
        ensures { result.now ≡ self.now }
    {
        self.set.as_slice()
    }

    /// How many names there are.
    pub fn len(&self) -> usize
        ensures { result ≡ length self.now }
    {
        self.set.len()
    }

    /// No name stands twice.
    pub fn distinct(&self)
        ensures { IsDistinct self.now }
    {
        let _ = self.set.len();
    }
}
