ghost use Rattle.std.specs.Prelude.{◌≡◌, ◌++◌, ◌∷◌, [], Some, codes, length, IsTrue};
ghost use Rattle.std.specs.List.{flat_map};
ghost use Rattle.mv_page.specs.Page.{AddsPiece, paged};
ghost use Rattle.mv_lex.specs.Text.{line_text};
ghost use Rattle.mv_net.specs.Nets.{slot, name_in, table_in};
ghost use Rattle.mv_net.specs.Index.{is_held};
ghost use Rattle.mv_text.specs.Text.{fanins_of, names_of};
ghost use Rattle.mv_write.specs.Walk.{AreHeld};
ghost use Rattle.mv_blif_text.specs.BlifText.{gate_words, net_words};

use crate::rows::put_choice;
use mv_base::{Failed, NetId, Sink};
use mv_cover::Cover;
use mv_net::Network;
use mv_write::{Page, is_reset_net, put_names};

/// Appends the line that begins a table: its fanins, and the name of its output.
fn put_head<K: Sink>(
    net: &Network,
    fanins: &[NetId],
    name: &[u8],
    page: &mut Page,
    out: &mut K,
) -> Result<(), Failed>
    requires { AreHeld net.now.nets fanins.now }
    ensures { AddsPiece (paged (K.state out.old) page.old) (paged (K.state out.new) page.new)
        (line_text (codes ".names" ∷ names_of net.now.nets fanins.now ++ name.now ∷ []))
        result }
{
    page.put(b".names", out)?;
    put_names(net, fanins, page, out)?;
    page.put_both(b" ", name, out)?;
    page.put(b"\n", out)
}

/// Appends the lines of a table.
fn put_table<K: Sink>(
    net: &Network,
    n: NetId,
    cover: &Cover,
    page: &mut Page,
    out: &mut K,
) -> Result<(), Failed>
    requires held { IsTrue (is_held net.now.nets n.0) }
    requires table { table_in (slot net.now.nets n.0) ≡ Some cover.now }
    ensures { AddsPiece (paged (K.state out.old) page.old) (paged (K.state out.new) page.new)
        (flat_map line_text
        (gate_words net.now.nets (name_in (slot net.now.nets n.0))
        (fanins_of (length net.now.nets) cover.now) cover.now)) result }
{
    net.well_formed();
    let fanins = net.fanins(n);
    put_head(net, fanins, net.name(n), page, out)?;
    put_choice(cover, fanins, page, out)
}

/// Appends the lines of the table of this number, if there is one that is no reset table.
fn put_net<K: Sink>(net: &Network, n: NetId, page: &mut Page, out: &mut K) -> Result<(), Failed>
    ensures { AddsPiece (paged (K.state out.old) page.old) (paged (K.state out.new) page.new)
        (flat_map line_text (net_words net.now.nets (slot net.now.nets n.0))) result }
{
    if !net.holds(n) {
        return Ok(());
    }
    if is_reset_net(net, n) {
        return Ok(());
    }
    match net.table(n) {
        Some(cover) => put_table(net, n, cover, page, out),
        None => Ok(()),
    }
}

/// Appends the lines of all tables but reset tables, by ascending number.
pub fn put_tables<K: Sink>(net: &Network, page: &mut Page, out: &mut K) -> Result<(), Failed>
    ensures { AddsPiece (paged (K.state out.old) page.old) (paged (K.state out.new) page.new)
        (flat_map line_text (flat_map (net_words net.now.nets) net.now.nets)) result }
{
    for n in 0..net.next_number() {
        put_net(net, NetId(n), page, out)?;
    }
    Ok(())
}
