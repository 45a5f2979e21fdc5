ghost use Rattle.std.specs.Prelude.{map, IsTrue};
ghost use Rattle.std.specs.List.{flat_map};
ghost use Rattle.mv_page.specs.Page.{AddsPiece, paged};
ghost use Rattle.mv_lex.specs.Text.{line_text};
ghost use Rattle.mv_net.specs.Index.{is_held};
ghost use Rattle.mv_text.specs.Text.{latch_words};

use crate::page::Page;
use mv_base::{Failed, Sink};
use mv_net::{FlatLatch, Network};

/// Appends the line of a latch: its input and its output.
fn put_latch<K: Sink>(
    net: &Network,
    latch: FlatLatch,
    page: &mut Page,
    out: &mut K,
) -> Result<(), Failed>
    requires input { IsTrue (is_held net.now.nets latch.input.0) }
    requires output { IsTrue (is_held net.now.nets latch.output.0) }
    ensures { AddsPiece (paged (K.state out.old) page.old) (paged (K.state out.new) page.new)
        (line_text (latch_words net.now.nets latch)) result }
{
    page.put_both(b".latch ", net.name(latch.input), out)?;
    page.put_both(b" ", net.name(latch.output), out)?;
    page.put(b"\n", out)
}

/// Appends the lines of all latches, in order.
pub fn put_latches<K: Sink>(net: &Network, page: &mut Page, out: &mut K) -> Result<(), Failed>
    ensures { AddsPiece (paged (K.state out.old) page.old) (paged (K.state out.new) page.new)
        (flat_map line_text (map (latch_words net.now.nets) net.now.latches)) result }
{
    net.well_formed();
    for latch in net.latches() {
        put_latch(net, *latch, page, out)?;
    }
    Ok(())
}
