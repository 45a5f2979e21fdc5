ghost use Rattle.std.specs.Prelude.{◌≡◌, ℕ, ◌∷◌, ◌++◌, [], IsTrue, IfSome, IsNone};
ghost use Rattle.std.specs.List.{flat_map};
ghost use Rattle.mv_page.specs.Page.{AddsPiece, paged};
ghost use Rattle.mv_base.specs.Set.{full};
ghost use Rattle.mv_lex.specs.Text.{line_text};
ghost use Rattle.mv_cover.specs.Covers.{lines_read};
ghost use Rattle.mv_net.specs.Nets.{slot, values_in, spelled_in};
ghost use Rattle.mv_net.specs.Formed.{AllLiterals, AllLines};
ghost use Rattle.mv_graph.specs.Nets.{IsAscending};
ghost use Rattle.mv_net.specs.Index.{is_held};
ghost use Rattle.mv_text.specs.Text.{entry_word, line_words, numbers};
ghost use Rattle.mv_write.specs.Walk.{first_set, literals_behind, walked, entries_text, AreFaninsOf, AreHeld, IsLineOver};

use crate::entries::{put_entry, put_literal};
use crate::page::Page;
use mv_base::{Failed, NetId, Sink};
use mv_cover::{Line, Lit};
use mv_net::Network;

/// The literals behind a net that is no higher than theirs.
pub fn behind(lits: &[Lit], net: NetId) -> &[Lit]
    ensures { result.now ≡ literals_behind lits.now net.0 }
{
    match lits.split_first() {
        Some((lit, rest)) if lit.net() == net => rest,
        _ => lits,
    }
}

/// The literal of a net that is no higher than the literals' nets, if it has one.
fn literal_at(lits: &[Lit], net: NetId) -> Option<&Lit>
    ensures some { IfSome result (λ l. (count : ℕ) → first_set count lits.now net.0 ≡ l.now.set) }
    ensures none { IsNone result → (count : ℕ) → first_set count lits.now net.0 ≡ full count }
{
    match lits.split_first() {
        Some((lit, _rest)) if lit.net() == net => Some(lit),
        _ => None,
    }
}

/// Appends the entry of a net that is no higher than the literals' nets, with a space behind it: most tables have nets that
/// a row leaves open.
fn put_fanin<K: Sink>(
    net: &Network,
    lits: &[Lit],
    n: NetId,
    page: &mut Page,
    out: &mut K,
) -> Result<(), Failed>
    requires held { IsTrue (is_held net.now.nets n.0) }
    requires literals { AllLiterals net.now.nets lits.now }
    ensures { AddsPiece (paged (K.state out.old) page.old) (paged (K.state out.new) page.new)
        (entry_word (spelled_in (slot net.now.nets n.0))
        (first_set (values_in (slot net.now.nets n.0)) lits.now n.0) ++ 32 ∷ []) result }
{
    net.well_formed();
    match literal_at(lits, n) {
        Some(lit) => put_literal(net, n, lit, page, out),
        None => page.put(b"- ", out),
    }
}

/// Appends the entries of these nets in the cube, each with a space behind it.
fn put_entries<K: Sink>(
    net: &Network,
    lits: &[Lit],
    fanins: &[NetId],
    page: &mut Page,
    out: &mut K,
) -> Result<(), Failed>
    requires held { AreHeld net.now.nets fanins.now }
    requires literals { AllLiterals net.now.nets lits.now }
    ensures { AddsPiece (paged (K.state out.old) page.old) (paged (K.state out.new) page.new)
        (entries_text (walked net.now.nets lits.now fanins.now)) result }
{
    let mut left = lits;
    for n in fanins {
        put_fanin(net, left, *n, page, out)?;
        left = behind(left, *n);
    }
    Ok(())
}

/// Appends a row of the table of this net: its entries at the fanins, the output last.
fn put_row<K: Sink>(
    net: &Network,
    n: NetId,
    line: &Line,
    fanins: &[NetId],
    page: &mut Page,
    out: &mut K,
) -> Result<(), Failed>
    requires held { IsTrue (is_held net.now.nets n.0) }
    requires all_held { AreHeld net.now.nets fanins.now }
    requires fanins { AreFaninsOf line.now.cube fanins.now }
    requires line { IsLineOver net.now.nets (values_in (slot net.now.nets n.0)) line.now }
    ensures { AddsPiece (paged (K.state out.old) page.old) (paged (K.state out.new) page.new)
        (line_text (line_words net.now.nets (spelled_in (slot net.now.nets n.0))
        (numbers fanins.now) line.now)) result }
{
    put_entries(net, line.cube.lits(), fanins, page, out)?;
    put_entry(net, n, &line.out, b'\n', page, out)
}

/// Appends the rows of the table of this net.
pub fn put_rows<K: Sink>(
    net: &Network,
    n: NetId,
    lines: &[Line],
    fanins: &[NetId],
    page: &mut Page,
    out: &mut K,
) -> Result<(), Failed>
    requires held { IsTrue (is_held net.now.nets n.0) }
    requires all_held { AreHeld net.now.nets fanins.now }
    requires fanins { IsAscending (lines_read lines.now) fanins.now }
    requires lines { AllLines net.now.nets (values_in (slot net.now.nets n.0)) lines.now }
    ensures { AddsPiece (paged (K.state out.old) page.old) (paged (K.state out.new) page.new)
        (flat_map (λ l. line_text
        (line_words net.now.nets (spelled_in (slot net.now.nets n.0))
        (numbers fanins.now) l)) lines.now) result }
{
    for line in lines {
        put_row(net, n, line, fanins, page, out)?;
    }
    Ok(())
}
