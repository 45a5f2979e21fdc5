ghost use Rattle.std.specs.Prelude.{◌≡◌};
ghost use Rattle.mv_entry.specs.Tallies.{with_note};

use mv_base::{Failed, Sink};
use mv_entry::{Journal, Note, Rule, Tally, put_note, put_rule};

/// A journal over a sink, which gains the text of each rule and each note as it is taken. It takes no memory.
#[derive(Drop)]
pub struct NoteJournal<'a, E: Sink> {
    sink: &'a mut E,
    tally: Tally,
}

impl<'a, E: Sink> NoteJournal<'a, E> {
    /// The journal over this sink, which has taken nothing yet.
    pub fn new(sink: &'a mut E) -> NoteJournal<'a, E>
        ensures place { result.sink.ghost_name ≡ sink.entry.ghost_name }
        ensures sink { result.sink.now ≡ sink.old }
        ensures tally { result.tally ≡ record { begun = 0; rules = 0; dropped = 0 } }
    {
        NoteJournal {
            sink,
            tally: Tally {
                begun: 0,
                rules: 0,
                dropped: 0,
            },
        }
    }
}

/// The tally with a note more.
fn with_note(tally: Tally, note: &Note) -> Tally
    ensures { result ≡ with_note tally note.now }
{
    match note {
        Note::Begin(_command) => Tally {
            begun: tally.begun.saturating_add(1),
            ..tally
        },
        Note::Dropped(_why, _net) => Tally {
            dropped: tally.dropped.saturating_add(1),
            ..tally
        },
        Note::End(_literals) => tally,
        Note::Done(_before, _after) => tally,
    }
}

impl<'a, E: Sink> Journal for NoteJournal<'a, E> {
    ghost use Rattle.mv_entry.specs.Tallies.{Journaled};

    ghost state = { λ j. record { written = E.state j.sink.now; tally = j.tally; place = j.sink.ghost_name } };

    fn rule(&mut self, rule: &Rule) -> Result<(), Failed> {
        match put_rule(rule, self.sink) {
            Ok(()) => {}
            Err(failed) => return Err(failed),
        }
        self.tally.rules = self.tally.rules.saturating_add(1);
        Ok(())
    }

    fn note(&mut self, note: &Note) -> Result<(), Failed> {
        match put_note(note, self.sink) {
            Ok(()) => {}
            Err(failed) => return Err(failed),
        }
        self.tally = with_note(self.tally, note);
        Ok(())
    }

    fn tally(&self) -> Tally {
        self.tally
    }
}
