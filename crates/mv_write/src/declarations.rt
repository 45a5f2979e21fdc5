ghost use Rattle.std.specs.Prelude.{◌∷◌, codes, decimal};
ghost use Rattle.std.specs.List.{flat_map};
ghost use Rattle.mv_page.specs.Page.{AddsPiece, paged};
ghost use Rattle.mv_lex.specs.Text.{spaced, line_text};
ghost use Rattle.mv_net.specs.Nets.{slot};
ghost use Rattle.mv_text.specs.Text.{decl_words};

use crate::page::Page;
use crate::resets::is_reset_net;
use itoa::Buffer;
use mv_base::{Failed, Name, NetId, Sink};
use mv_net::Network;

/// Appends these names, each behind a space.
fn put_spaced<K: Sink>(names: &[Name], page: &mut Page, out: &mut K) -> Result<(), Failed>
    ensures { AddsPiece (paged (K.state out.old) page.old) (paged (K.state out.new) page.new)
        (spaced names.now) result }
{
    for name in names {
        page.put_both(b" ", name.bytes(), out)?;
    }
    Ok(())
}

/// Appends the line that declares a net: its name, how many values it has, and their names.
fn put_declaration<K: Sink>(
    name: &[u8],
    count: u16,
    names: &[Name],
    page: &mut Page,
    out: &mut K,
) -> Result<(), Failed>
    ensures { AddsPiece (paged (K.state out.old) page.old) (paged (K.state out.new) page.new)
        (line_text (codes ".mv" ∷ name.now ∷ decimal count ∷ names.now)) result }
{
    page.put_both(b".mv ", name, out)?;
    let mut buffer = Buffer::new();
    page.put_both(b" ", buffer.format(count).as_bytes(), out)?;
    put_spaced(names, page, out)?;
    page.put(b"\n", out)
}

/// Appends the declaration of the net of this number, if it needs one: it is held, is no reset net, and has other values
/// than 0 and 1.
fn declare<K: Sink>(net: &Network, n: NetId, page: &mut Page, out: &mut K) -> Result<(), Failed>
    ensures { AddsPiece (paged (K.state out.old) page.old) (paged (K.state out.new) page.new)
        (flat_map line_text (decl_words (slot net.now.nets n.0))) result }
{
    if !net.holds(n) || is_reset_net(net, n) {
        return Ok(());
    }
    let count = net.values(n);
    let names = net.value_names(n);
    if count == 2 && names.is_empty() {
        return Ok(());
    }
    put_declaration(net.name(n), count, names, page, out)
}

/// Appends the declarations of all nets, by ascending number.
pub fn put_declarations<K: Sink>(net: &Network, page: &mut Page, out: &mut K) -> Result<(), Failed>
    ensures { AddsPiece (paged (K.state out.old) page.old) (paged (K.state out.new) page.new)
        (flat_map line_text (flat_map decl_words net.now.nets)) result }
{
    for n in 0..net.next_number() {
        declare(net, NetId(n), page, out)?;
    }
    Ok(())
}
