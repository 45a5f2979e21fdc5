ghost use Rattle.std.specs.Prelude.{◌≡◌};

use crate::{Note, Rule};
use mv_base::Failed;

/// How many Begin notes, rules and Dropped notes a journal took. Each number ends at its greatest value.
#[derive(Clone, Copy, Debug, Default, PartialEq, Eq)]
pub struct Tally {
    pub begun: u64,
    pub rules: u64,
    pub dropped: u64,
}

/// A place that takes rules and notes in order. It takes no memory.
pub trait Journal {
    ghost use Rattle.std.specs.Prelude.{◌≡◌};
    ghost use Rattle.mv_entry.specs.declared.journal.Tally.{Tally};
    ghost use Rattle.mv_entry.specs.Entries.{Applied, Noted, HasVisibleNames};
    ghost use Rattle.mv_entry.specs.Tallies.{Journaled, Takes};

    /// What was taken so far, and where its text goes.
    ghost state: { Self → Journaled };

    /// Takes a rule that was applied, or fails and takes some first part of its text. The names in it are to be visible.
    fn rule(&mut self, rule: &Rule) -> Result<(), Failed>
        requires { HasVisibleNames (Applied rule.now) }
        ensures { Takes (state self.old) (state self.new) (Applied rule.now) result };

    /// Takes a note, or fails and takes some first part of its text. The names in it are to be visible.
    fn note(&mut self, note: &Note) -> Result<(), Failed>
        requires { HasVisibleNames (Noted note.now) }
        ensures { Takes (state self.old) (state self.new) (Noted note.now) result };

    /// The numbers of entries taken so far.
    fn tally(&self) -> Tally
        ensures { result ≡ (state self.now).tally };
}
