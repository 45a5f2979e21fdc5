//! The sets and the entries of a row, of which few take no memory of their own.
ghost use Rattle.std.specs.Prelude.{◌≡◌, ◌∷◌, ◌++◌, [], IfOk, OnOk};
ghost use Rattle.mv_design.specs.Short.{sets_in, entries_in};

use crate::copies::copy_sets;
use crate::table::Entry;
use mv_base::{Items, Memory, PackedSet};
use std::alloc::Global;
use std::marker::Model;
use std::mem;
use std::slice::from_ref;

/// The sets of a row, seen by contracts as their list. Up to two stand in the row itself, and more in memory of their own.
#[derive(Drop)]
pub struct Sets {
    form: FewSets,
}

/// Where the sets stand.
#[derive(Drop)]
enum FewSets {
    None,
    One(PackedSet),
    Two([PackedSet; 2]),
    Many(Items<PackedSet>),
}

impl Model for Sets {
    ghost use Rattle.std.specs.Prelude.{List, ℕ};
    ghost use Rattle.mv_design.specs.Short.{sets_in};

    ghost Value = { List ℕ };

    ghost view = { λ s. sets_in s.form };
}

impl Sets {
    /// The list without sets, with room for so many.
    pub fn with_room(alloc: Global, room: usize) -> Result<Sets, Memory>
        ensures { IfOk result (λ sets. sets ≡ []) }
    {
        let form = if room > 2 {
            FewSets::Many(Items::with_room(alloc, room)?)
        } else {
            FewSets::None
        };
        Ok(Sets { form })
    }

    /// The list of one set. It takes no memory.
    pub fn one(set: PackedSet) -> Sets
        ensures { result ≡ set ∷ [] }
    {
        Sets {
            form: FewSets::One(set),
        }
    }

    /// The sets.
    pub fn as_slice(&self) -> &[PackedSet]
        ensures { result.now ≡ self.now }
    {
        match &self.form {
            FewSets::None => &[],
            FewSets::One(set) => from_ref(set),
            FewSets::Two(sets) => sets.as_slice(),
            FewSets::Many(sets) => sets.as_slice(),
        }
    }

    /// Adds a set at the end.
    pub fn push(&mut self, alloc: Global, set: PackedSet) -> Result<(), Memory>
        ensures { OnOk result (self.new ≡ self.old ++ set ∷ []) }
    {
        if let FewSets::Many(sets) = &mut self.form {
            sets.push(set)?;
            return Ok(());
        }
        let form = mem::replace(&mut self.form, FewSets::None);
        self.form = with_set(alloc, form, set)?;
        Ok(())
    }
}

/// The sets with one more.
fn with_set(alloc: Global, form: FewSets, set: PackedSet) -> Result<FewSets, Memory>
    ensures { IfOk result (λ more. sets_in more ≡ sets_in form ++ set ∷ []) }
{
    match form {
        FewSets::None => Ok(FewSets::One(set)),
        FewSets::One(first) => Ok(FewSets::Two([first, set])),
        FewSets::Two(pair) => {
            let mut sets = copy_sets(alloc, pair.as_slice())?;
            sets.push(set)?;
            Ok(FewSets::Many(sets))
        }
        FewSets::Many(sets) => {
            let mut sets = sets;
            sets.push(set)?;
            Ok(FewSets::Many(sets))
        }
    }
}

/// The entries of a row or a default, seen by contracts as their list. One stands in the row itself, and more in memory of their
/// own.
#[derive(Drop)]
pub struct Entries {
    form: FewEntries,
}

/// Where the entries stand.
#[derive(Drop)]
enum FewEntries {
    None,
    One(Entry),
    Many(Items<Entry>),
}

impl Model for Entries {
    ghost use Rattle.std.specs.Prelude.{List};
    ghost use Rattle.mv_design.specs.declared.table.Entry.{Entry};
    ghost use Rattle.mv_design.specs.Short.{entries_in};

    ghost Value = { List Entry };

    ghost view = { λ e. entries_in e.form };
}

impl Entries {
    /// The list without entries, with room for so many.
    pub fn with_room(alloc: Global, room: usize) -> Result<Entries, Memory>
        ensures { IfOk result (λ entries. entries ≡ []) }
    {
        let form = if room > 1 {
            FewEntries::Many(Items::with_room(alloc, room)?)
        } else {
            FewEntries::None
        };
        Ok(Entries { form })
    }

    /// The list of one entry. It takes no memory.
    pub fn one(entry: Entry) -> Entries
        ensures { result ≡ entry ∷ [] }
    {
        Entries {
            form: FewEntries::One(entry),
        }
    }

    /// The entries.
    pub fn as_slice(&self) -> &[Entry]
        ensures { result.now ≡ self.now }
    {
        match &self.form {
            FewEntries::None => &[],
            FewEntries::One(entry) => from_ref(entry),
            FewEntries::Many(entries) => entries.as_slice(),
        }
    }

    /// Adds an entry at the end.
    pub fn push(&mut self, alloc: Global, entry: Entry) -> Result<(), Memory>
        ensures { OnOk result (self.new ≡ self.old ++ entry ∷ []) }
    {
        if let FewEntries::Many(entries) = &mut self.form {
            entries.push(entry)?;
            return Ok(());
        }
        let form = mem::replace(&mut self.form, FewEntries::None);
        self.form = with_entry(alloc, form, entry)?;
        Ok(())
    }
}

/// The entries with one more.
fn with_entry(alloc: Global, form: FewEntries, entry: Entry) -> Result<FewEntries, Memory>
    ensures { IfOk result (λ more. entries_in more ≡ entries_in form ++ entry ∷ []) }
{
    match form {
        FewEntries::None => Ok(FewEntries::One(entry)),
        FewEntries::One(first) => {
            let mut entries = Items::with_room(alloc, 2)?;
            entries.push(first)?;
            entries.push(entry)?;
            Ok(FewEntries::Many(entries))
        }
        FewEntries::Many(entries) => {
            let mut entries = entries;
            entries.push(entry)?;
            Ok(FewEntries::Many(entries))
        }
    }
}
