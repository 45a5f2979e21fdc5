ghost use Rattle.mv_base.specs.Outside.{Appends};
ghost use Rattle.mv_task.specs.Lines.{TellsLine};
ghost use Rattle.mv_trace.specs.Told.{fault_line};
ghost use Rattle.mv_tracing.specs.RunFiles.{told_line, lex_line};

use itoa::Buffer;
use mv_base::{Failed, Sink, put_both};
use mv_lex::LexFault;
use mv_trace::{TraceFault, put_trace_fault};

/// Puts the line that tells this cause at a line of the run file.
fn put_told<E: Sink>(line: u32, cause: &[u8], notes: &mut E) -> Result<(), Failed>
    ensures { Appends (E.state notes.old) (E.state notes.new) (told_line line cause.now) result }
{
    let mut buffer = Buffer::new();
    put_both(b"# fault trace ", buffer.format(line).as_bytes(), notes)?;
    put_both(b" ", cause, notes)?;
    notes.put(b"\n")
}

/// Puts the line of a fault of a run file's bytes. It takes no memory.
pub fn put_lex_line<E: Sink>(fault: LexFault, notes: &mut E) -> Result<(), Failed>
    ensures { Appends (E.state notes.old) (E.state notes.new) (lex_line fault) result }
{
    match fault {
        LexFault::BadByte { line, .. } => put_told(line, b"Lex 1", notes),
        LexFault::LongWord { line } => put_told(line, b"Lex 2", notes),
        LexFault::OpenBracket { line } => put_told(line, b"Lex 3", notes),
        LexFault::TooLarge { line } => put_told(line, b"Lex 4", notes),
        LexFault::Memory => notes.put(b"# fault memory\n"),
    }
}

/// Puts the line of a fault of a run file's lines to the notes, as far as they take it.
pub fn tell_fault<E: Sink>(fault: &TraceFault, notes: &mut E)
    ensures { TellsLine (E.state notes.old) (E.state notes.new) (fault_line fault.now) }
{
    match put_trace_fault(fault, notes) {
        Ok(()) => {}
        Err(_failed) => {}
    }
}
