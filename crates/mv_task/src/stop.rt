ghost use Rattle.std.specs.Prelude.{◌≡◌};
ghost use Rattle.mv_base.specs.Outside.{Appends};
ghost use Rattle.mv_task.specs.Lines.{TellsLine};
ghost use Rattle.mv_task.specs.Stops.{line_of, status_of};

use mv_base::{Failed, Sink};

/// Why a stage gives nothing: what is there is refused, it couldn't be read, or memory ran out.
#[derive(Debug, Drop)]
pub enum Stop<T> {
    Refused(T),
    Read,
    Memory,
}

/// Why what is there is refused.
pub trait Fault: Drop {
    ghost use Rattle.std.specs.Prelude.{ℕ, List};
    ghost use Rattle.mv_base.specs.Outside.{Appends};

    /// The line that tells it.
    ghost line: { Self → List ℕ };

    /// Puts its line to the notes. It takes no memory.
    fn put_line<E: Sink>(&self, notes: &mut E) -> Result<(), Failed>
        ensures { Appends (E.state notes.old) (E.state notes.new) (line self.now) result };
}

/// Puts a line to the notes, as far as they take it.
pub fn tell<E: Sink>(line: &[u8], notes: &mut E)
    ensures { TellsLine (E.state notes.old) (E.state notes.new) line.now }
{
    match notes.put(line) {
        Ok(()) => {}
        Err(_failed) => {}
    }
}

/// Puts the line of a fault to the notes, as far as they take it.
fn tell_fault<T: Fault, E: Sink>(fault: &T, notes: &mut E)
    ensures { TellsLine (E.state notes.old) (E.state notes.new) (T.line fault.now) }
{
    match fault.put_line(notes) {
        Ok(()) => {}
        Err(_failed) => {}
    }
}

/// Tells why a stage gives nothing, as far as the notes take it. The answer is the status.
pub fn refuse<T: Fault, E: Sink>(stop: &Stop<T>, refusal: u8, notes: &mut E) -> u8
    ensures status { result ≡ status_of refusal stop.now }
    ensures tells { TellsLine (E.state notes.old) (E.state notes.new) (line_of T.line stop.now) }
{
    match stop {
        Stop::Refused(fault) => {
            tell_fault(fault, notes);
            refusal
        }
        Stop::Read => {
            tell(b"# fault read\n", notes);
            4
        }
        Stop::Memory => {
            tell(b"# fault memory\n", notes);
            6
        }
    }
}
