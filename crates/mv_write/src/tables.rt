ghost use Rattle.std.specs.Prelude.{◌≡◌, Some, IsTrue};
ghost use Rattle.std.specs.List.{flat_map};
ghost use Rattle.mv_page.specs.Page.{AddsPiece, paged};
ghost use Rattle.mv_lex.specs.Text.{line_text};
ghost use Rattle.mv_net.specs.Nets.{slot, values_in, table_in, spelled_in};
ghost use Rattle.mv_net.specs.Index.{is_held};
ghost use Rattle.mv_text.specs.Text.{default_words, net_words};
ghost use Rattle.mv_write.specs.Walk.{IsDefaultSet};

use crate::entries::put_entry;
use crate::page::Page;
use crate::pieces::put_head;
use crate::resets::{head_word, told_name};
use crate::rows::put_rows;
use mv_base::{Failed, NetId, PackedSet, Sink};
use mv_cover::Cover;
use mv_net::Network;

/// Appends the line of a default of this net's table, if there is one.
fn put_default<K: Sink>(
    net: &Network,
    n: NetId,
    default: &Option<PackedSet>,
    page: &mut Page,
    out: &mut K,
) -> Result<(), Failed>
    requires held { IsTrue (is_held net.now.nets n.0) }
    requires default { IsDefaultSet (values_in (slot net.now.nets n.0)) default.now }
    ensures { AddsPiece (paged (K.state out.old) page.old) (paged (K.state out.new) page.new)
        (flat_map line_text
        (default_words (spelled_in (slot net.now.nets n.0)) default.now)) result }
{
    match default {
        Some(set) => {
            page.put(b".default ", out)?;
            put_entry(net, n, set, b'\n', page, out)
        }
        None => Ok(()),
    }
}

/// Appends the lines of a table.
fn put_table<K: Sink>(
    net: &Network,
    n: NetId,
    cover: &Cover,
    page: &mut Page,
    out: &mut K,
) -> Result<(), Failed>
    requires held { IsTrue (is_held net.now.nets n.0) }
    requires table { table_in (slot net.now.nets n.0) ≡ Some cover.now }
    ensures { AddsPiece (paged (K.state out.old) page.old) (paged (K.state out.new) page.new)
        (flat_map line_text (net_words net.now.nets (slot net.now.nets n.0))) result }
{
    net.well_formed();
    let fanins = net.fanins(n);
    put_head(head_word(net, n), net, fanins, told_name(net, n), page, out)?;
    put_default(net, n, &cover.default, page, out)?;
    put_rows(net, n, cover.lines.as_slice(), fanins, page, out)
}

/// Appends the lines of the table of this number, if there is one.
fn put_net<K: Sink>(net: &Network, n: NetId, page: &mut Page, out: &mut K) -> Result<(), Failed>
    ensures { AddsPiece (paged (K.state out.old) page.old) (paged (K.state out.new) page.new)
        (flat_map line_text (net_words net.now.nets (slot net.now.nets n.0))) result }
{
    if !net.holds(n) {
        return Ok(());
    }
    match net.table(n) {
        Some(cover) => put_table(net, n, cover, page, out),
        None => Ok(()),
    }
}

/// Appends the lines of all tables, by ascending number.
pub fn put_tables<K: Sink>(net: &Network, page: &mut Page, out: &mut K) -> Result<(), Failed>
    ensures { AddsPiece (paged (K.state out.old) page.old) (paged (K.state out.new) page.new)
        (flat_map line_text (flat_map (net_words net.now.nets) net.now.nets)) result }
{
    for n in 0..net.next_number() {
        put_net(net, NetId(n), page, out)?;
    }
    Ok(())
}
