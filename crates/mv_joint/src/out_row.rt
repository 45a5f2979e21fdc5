ghost use Rattle.std.specs.Prelude.{◌≡◌, ◌∷◌, ◌++◌, [], IfOk, OnOk, OnErr};

use mv_base::{Items, Memory, PackedSet};
use mv_design::copy_sets;
use std::alloc::Global;
use std::hash::{Hash, Hasher};
use std::marker::Model;

/// A set of values for each output, seen as the list of them.
#[derive(Debug, Drop)]
pub struct OutRow {
    sets: Items<PackedSet>,
}

impl Model for OutRow {
    ghost use Rattle.std.specs.Prelude.{List, ℕ};

    ghost Value = { List ℕ };

    ghost view = { λ a. a.sets };
}

impl OutRow {
    /// These sets.
    pub fn of(sets: Items<PackedSet>) -> OutRow
        ensures { result ≡ sets }
    {
        OutRow { sets }
    }

    /// The sets.
    pub fn as_slice(&self) -> &[PackedSet]
        ensures { result.now ≡ self.now }
    {
        self.sets.as_slice()
    }

    /// An equal row.
    pub fn copy(&self) -> Result<OutRow, Memory>
        ensures { IfOk result (λ row. row ≡ self.now) }
    {
        Ok(OutRow {
            sets: copy_sets(self.sets.allocator(), self.sets.as_slice())?,
        })
    }

    /// Adds a set for one output more. On an error the row is as before.
    pub fn push(&mut self, set: PackedSet) -> Result<(), Memory>
        ensures ok { OnOk result (self.new ≡ self.old ++ set ∷ []) }
        ensures err { OnErr result (self.new ≡ self.old) }
    {
        match self.sets.push(set) {
            Ok(()) => Ok(()),
            Err(_refused) => Err(Memory),
        }
    }
}

impl PartialEq for OutRow {
    ghost use Rattle.mv_joint.specs.OutRows.{same_outs, same_outs-partial_equiv};

    ghost eq = { same_outs };

    ghost laws = { same_outs-partial_equiv };

    fn eq(&self, other: &OutRow) -> bool {
        self.sets.as_slice() == other.sets.as_slice()
    }
}

impl Eq for OutRow {
    ghost use Rattle.mv_joint.specs.OutRows.{same_outs-equiv};

    ghost laws = { same_outs-equiv };
}

impl Hash for OutRow {
    ghost use Rattle.mv_joint.specs.OutRows.{outs_fed, outs_fed-same};

    ghost hash_input = { outs_fed };

    ghost respects_eq = { outs_fed-same };

    fn hash<H: Hasher>(&self, state: &mut H) {
        self.sets.as_slice().hash(state);
    }
}
