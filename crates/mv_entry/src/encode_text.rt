ghost use Rattle.std.specs.Prelude.{◌≡◌, [], ◌∷◌, ◌++◌, decimal, codes, length, map};
ghost use Rattle.mv_page.specs.Page.{AddsPiece, paged};
ghost use Rattle.mv_lex.specs.Text.{spaced, line_text};
ghost use Rattle.mv_entry.specs.Entries.{bit_byte, code_word};

use crate::Code;
use crate::page::Page;
use crate::words::{put_number, put_word};
use mv_base::{Failed, Name, Sink};

/// Puts names, each behind a space.
fn put_names<E: Sink>(names: &[Name], page: &mut Page, sink: &mut E) -> Result<(), Failed>
    ensures { AddsPiece (paged (E.state sink.old) page.old) (paged (E.state sink.new) page.new)
        (spaced names.now) result }
{
    for name in names {
        put_word(name.bytes(), page, sink)?;
    }
    Ok(())
}

/// A bit as its digit.
fn bit_text(bit: bool) -> &'static [u8]
    ensures { result.now ≡ bit_byte bit ∷ [] }
{
    if bit { b"1" } else { b"0" }
}

/// Puts bits, each as its digit.
fn put_bits<E: Sink>(bits: &[bool], page: &mut Page, sink: &mut E) -> Result<(), Failed>
    ensures { AddsPiece (paged (E.state sink.old) page.old) (paged (E.state sink.new) page.new)
        (map bit_byte bits.now) result }
{
    for bit in bits {
        page.put(bit_text(*bit), sink)?;
    }
    Ok(())
}

/// Puts a code behind a space.
fn put_code<E: Sink>(code: &Code, page: &mut Page, sink: &mut E) -> Result<(), Failed>
    ensures { AddsPiece (paged (E.state sink.old) page.old) (paged (E.state sink.new) page.new)
        (spaced (code_word code.now ∷ [])) result }
{
    page.put(b" ", sink)?;
    put_bits(code.bits.as_slice(), page, sink)
}

/// Puts codes, each behind a space.
fn put_codes<E: Sink>(list: &[Code], page: &mut Page, sink: &mut E) -> Result<(), Failed>
    ensures { AddsPiece (paged (E.state sink.old) page.old) (paged (E.state sink.new) page.new)
        (spaced (map code_word list.now)) result }
{
    for code in list {
        put_code(code, page, sink)?;
    }
    Ok(())
}

/// Puts the line of a rule that encodes a net.
pub fn put_encode<E: Sink>(
    net: &[u8],
    names: &[Name],
    list: &[Code],
    page: &mut Page,
    sink: &mut E,
) -> Result<(), Failed>
    ensures { AddsPiece (paged (E.state sink.old) page.old) (paged (E.state sink.new) page.new)
        (line_text (codes "encode" ∷ net.now ∷ decimal (length names.now) ∷ names.now
        ++ map code_word list.now)) result }
{
    page.put(b"encode", sink)?;
    put_word(net, page, sink)?;
    put_number(names.len() as u128, page, sink)?;
    put_names(names, page, sink)?;
    put_codes(list, page, sink)?;
    page.put(b"\n", sink)
}
