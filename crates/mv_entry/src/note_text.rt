ghost use Rattle.std.specs.Prelude.{◌≡◌, ◌∷◌, [], decimal};
ghost use Rattle.mv_base.specs.Outside.{Appends};
ghost use Rattle.mv_page.specs.Page.{AddsPiece, paged};
ghost use Rattle.mv_lex.specs.Text.{spaced};
ghost use Rattle.mv_entry.specs.Entries.{Noted, command_word, operands, why_word, why_numbers, entry_text};

use crate::page::Page;
use crate::words::{put_number, put_numbers, put_word};
use crate::{Command, Note, Why};
use mv_base::{Failed, Sink};

/// The first word of a command.
fn command_word(command: &Command) -> &'static [u8]
    ensures { result.now ≡ command_word command.now }
{
    match command {
        Command::Drop => b"drop",
        Command::Sweep => b"sweep",
        Command::Eliminate => b"eliminate",
        Command::Collapse(_) => b"collapse",
        Command::Kernel => b"kernel",
        Command::Cube => b"cube",
        Command::Simplify(..) => b"simplify",
        Command::Merge => b"merge",
        Command::Default => b"default",
        Command::Determinize => b"determinize",
        Command::Encode => b"encode",
        Command::Fill => b"fill",
    }
}

/// Puts the words of a command behind its first, each behind a space.
fn put_operands<E: Sink>(command: &Command, page: &mut Page, sink: &mut E) -> Result<(), Failed>
    ensures { AddsPiece (paged (E.state sink.old) page.old) (paged (E.state sink.new) page.new)
        (spaced (operands command.now)) result }
{
    match command {
        Command::Collapse(net) => put_word(net.bytes(), page, sink),
        Command::Simplify(down, up) => put_numbers(u128::from(*down), u128::from(*up), page, sink),
        _ => Ok(()),
    }
}

/// Puts the line that a command begins.
fn put_begin<E: Sink>(command: &Command, page: &mut Page, sink: &mut E) -> Result<(), Failed>
    ensures { AddsPiece (paged (E.state sink.old) page.old) (paged (E.state sink.new) page.new)
        (entry_text (Noted (Note.Begin command.now))) result }
{
    page.put(b"# begin", sink)?;
    put_word(command_word(command), page, sink)?;
    put_operands(command, page, sink)?;
    page.put(b"\n", sink)
}

/// The first word of why a step is dropped.
fn why_word(why: Why) -> &'static [u8]
    ensures { result.now ≡ why_word why }
{
    match why {
        Why::Literals { .. } => b"literals",
        Why::Lines => b"lines",
        Why::Nodes => b"nodes",
        Why::Window => b"window",
        Why::Kernels => b"kernels",
        Why::Shared => b"shared",
        Why::Seen => b"seen",
        Why::Partial => b"partial",
        Why::Absent => b"absent",
        Why::Varied => b"varied",
        Why::Unread => b"unread",
        Why::Nets => b"nets",
        Why::Strict => b"strict",
    }
}

/// Puts the numbers of why a step is dropped, each behind a space, where it has some.
fn put_literals<E: Sink>(why: Why, page: &mut Page, sink: &mut E) -> Result<(), Failed>
    ensures { AddsPiece (paged (E.state sink.old) page.old) (paged (E.state sink.new) page.new)
        (spaced (why_numbers why)) result }
{
    match why {
        Why::Literals { before, after } => put_numbers(before, after, page, sink),
        _ => Ok(()),
    }
}

/// Puts the line that a step at the named net is dropped.
fn put_dropped<E: Sink>(why: Why, net: &[u8], page: &mut Page, sink: &mut E) -> Result<(), Failed>
    ensures { AddsPiece (paged (E.state sink.old) page.old) (paged (E.state sink.new) page.new)
        (entry_text (Noted (Note.Dropped why net.now))) result }
{
    page.put(b"# note", sink)?;
    put_word(why_word(why), page, sink)?;
    put_literals(why, page, sink)?;
    put_word(net, page, sink)?;
    page.put(b"\n", sink)
}

/// Puts the line that a command ends with so many literals.
fn put_end<E: Sink>(literals: u128, page: &mut Page, sink: &mut E) -> Result<(), Failed>
    ensures { AddsPiece (paged (E.state sink.old) page.old) (paged (E.state sink.new) page.new)
        (entry_text (Noted (Note.End literals))) result }
{
    page.put(b"# end", sink)?;
    put_number(literals, page, sink)?;
    page.put(b"\n", sink)
}

/// Puts the line that the run ends.
fn put_done<E: Sink>(before: u128, after: u128, page: &mut Page, sink: &mut E) -> Result<(), Failed>
    ensures { AddsPiece (paged (E.state sink.old) page.old) (paged (E.state sink.new) page.new)
        (entry_text (Noted (Note.Done before after))) result }
{
    page.put(b"# done", sink)?;
    put_numbers(before, after, page, sink)?;
    page.put(b"\n", sink)
}

/// Puts the line of a note.
fn put_note_text<E: Sink>(note: &Note, page: &mut Page, sink: &mut E) -> Result<(), Failed>
    ensures { AddsPiece (paged (E.state sink.old) page.old) (paged (E.state sink.new) page.new)
        (entry_text (Noted note.now)) result }
{
    match note {
        Note::Begin(command) => put_begin(command, page, sink),
        Note::Dropped(why, net) => put_dropped(*why, net.bytes(), page, sink),
        Note::End(literals) => put_end(*literals, page, sink),
        Note::Done(before, after) => put_done(*before, *after, page, sink),
    }
}

/// Appends the line of a note to the sink, in large pieces: in one where it fits a page. It takes no memory.
pub fn put_note<E: Sink>(note: &Note, sink: &mut E) -> Result<(), Failed>
    ensures { Appends (E.state sink.old) (E.state sink.new) (entry_text (Noted note.now)) result }
{
    let mut page = Page::of(b"");
    match put_note_text(note, &mut page, sink) {
        Ok(()) => {}
        Err(failed) => return Err(failed),
    }
    page.hand_on(sink)
}
