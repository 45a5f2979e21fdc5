ghost use Rattle.std.specs.Prelude.{◌++◌, ◌∷◌, [], codes};
ghost use Rattle.mv_lex.specs.Text.{spaced, line_text};
ghost use Rattle.mv_text.specs.Text.{names_of};
ghost use Rattle.mv_page.specs.Page.{AddsPiece, paged};
ghost use Rattle.mv_write.specs.Walk.{AreHeld};

use crate::page::Page;
use mv_base::{Failed, NetId, Sink};
use mv_net::Network;

/// Appends the names of these nets, each behind a space.
pub fn put_names<K: Sink>(
    net: &Network,
    nets: &[NetId],
    page: &mut Page,
    out: &mut K,
) -> Result<(), Failed>
    requires { AreHeld net.now.nets nets.now }
    ensures { AddsPiece (paged (K.state out.old) page.old) (paged (K.state out.new) page.new)
        (spaced (names_of net.now.nets nets.now)) result }
{
    for n in nets {
        page.put_both(b" ", net.name(*n), out)?;
    }
    Ok(())
}

/// Appends this word and the names of these nets as a line.
pub fn put_list<K: Sink>(
    word: &[u8],
    net: &Network,
    nets: &[NetId],
    page: &mut Page,
    out: &mut K,
) -> Result<(), Failed>
    requires { AreHeld net.now.nets nets.now }
    ensures { AddsPiece (paged (K.state out.old) page.old) (paged (K.state out.new) page.new)
        (line_text (word.now ∷ names_of net.now.nets nets.now)) result }
{
    page.put(word, out)?;
    put_names(net, nets, page, out)?;
    page.put(b"\n", out)
}

/// Appends the line that begins a table: this word, its fanins, and the name of its output.
pub fn put_head<K: Sink>(
    word: &[u8],
    net: &Network,
    fanins: &[NetId],
    name: &[u8],
    page: &mut Page,
    out: &mut K,
) -> Result<(), Failed>
    requires { AreHeld net.now.nets fanins.now }
    ensures { AddsPiece (paged (K.state out.old) page.old) (paged (K.state out.new) page.new)
        (line_text (word.now ∷ names_of net.now.nets fanins.now ++ codes "->" ∷ name.now
        ∷ [])) result }
{
    page.put(word, out)?;
    put_names(net, fanins, page, out)?;
    page.put_both(b" -> ", name, out)?;
    page.put(b"\n", out)
}
