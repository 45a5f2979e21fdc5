ghost use Rattle.std.specs.Prelude.{◌∷◌, [], decimal};
ghost use Rattle.mv_page.specs.Page.{AddsPiece, paged};
ghost use Rattle.mv_lex.specs.Text.{spaced, line_text};

use crate::page::Page;
use itoa::Buffer;
use mv_base::{Failed, Sink};

/// Puts a word behind a space.
pub fn put_word<E: Sink>(word: &[u8], page: &mut Page, sink: &mut E) -> Result<(), Failed>
    ensures { AddsPiece (paged (E.state sink.old) page.old) (paged (E.state sink.new) page.new)
        (spaced (word.now ∷ [])) result }
{
    page.put_both(b" ", word, sink)
}

/// Puts a number behind a space.
pub fn put_number<E: Sink>(number: u128, page: &mut Page, sink: &mut E) -> Result<(), Failed>
    ensures { AddsPiece (paged (E.state sink.old) page.old) (paged (E.state sink.new) page.new)
        (spaced (decimal number ∷ [])) result }
{
    let mut buffer = Buffer::new();
    put_word(buffer.format(number).as_bytes(), page, sink)
}

/// Puts two numbers, each behind a space.
pub fn put_numbers<E: Sink>(
    first: u128,
    second: u128,
    page: &mut Page,
    sink: &mut E,
) -> Result<(), Failed>
    ensures { AddsPiece (paged (E.state sink.old) page.old) (paged (E.state sink.new) page.new)
        (spaced (decimal first ∷ decimal second ∷ [])) result }
{
    put_number(first, page, sink)?;
    put_number(second, page, sink)
}

/// Puts a line of two words.
pub fn put_pair<E: Sink>(
    first: &[u8],
    second: &[u8],
    page: &mut Page,
    sink: &mut E,
) -> Result<(), Failed>
    ensures { AddsPiece (paged (E.state sink.old) page.old) (paged (E.state sink.new) page.new)
        (line_text (first.now ∷ second.now ∷ [])) result }
{
    page.put(first, sink)?;
    put_word(second, page, sink)?;
    page.put(b"\n", sink)
}

/// Puts a line of three words.
pub fn put_triple<E: Sink>(
    first: &[u8],
    second: &[u8],
    third: &[u8],
    page: &mut Page,
    sink: &mut E,
) -> Result<(), Failed>
    ensures { AddsPiece (paged (E.state sink.old) page.old) (paged (E.state sink.new) page.new)
        (line_text (first.now ∷ second.now ∷ third.now ∷ [])) result }
{
    page.put(first, sink)?;
    put_word(second, page, sink)?;
    put_word(third, page, sink)?;
    page.put(b"\n", sink)
}
