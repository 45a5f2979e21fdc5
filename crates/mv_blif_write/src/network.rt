ghost use Rattle.std.specs.Prelude.{◌≡◌, length};
ghost use Rattle.std.specs.List.{flat_map};
ghost use Rattle.mv_base.specs.Outside.{Appends};
ghost use Rattle.mv_lex.specs.Text.{line_text};
ghost use Rattle.mv_page.specs.Page.{AddsPiece, paged};
ghost use Rattle.mv_blif_text.specs.BlifText.{inner_lines, blif_text};
ghost use Rattle.mv_write.specs.Opened.{unopened};

use crate::latches::put_latches;
use crate::tables::put_tables;
use mv_base::{Failed, Sink};
use mv_latch::BlifLatch;
use mv_net::Network;
use mv_write::{Page, put_ports};

/// Appends the lines between the outputs and the end.
fn put_inner<K: Sink>(
    net: &Network,
    latches: &[BlifLatch],
    page: &mut Page,
    out: &mut K,
) -> Result<(), Failed>
    requires { length latches.now ≡ length net.now.latches }
    ensures { AddsPiece (paged (K.state out.old) page.old) (paged (K.state out.new) page.new)
        (flat_map line_text (inner_lines net.now latches.now)) result }
{
    put_latches(net, latches, page, out)?;
    put_tables(net, page, out)
}

/// Puts the lines of a network, from behind the first word.
fn put_network<K: Sink>(
    net: &Network,
    latches: &[BlifLatch],
    page: &mut Page,
    out: &mut K,
) -> Result<(), Failed>
    requires { length latches.now ≡ length net.now.latches }
    ensures { AddsPiece (paged (K.state out.old) page.old) (paged (K.state out.new) page.new)
        (unopened net.now (inner_lines net.now latches.now)) result }
{
    put_ports(net, page, out)?;
    put_inner(net, latches, page, out)?;
    page.put(b".end\n", out)
}

/// Appends the text of a network as BLIF to the sink, with what is said of each of its latches, in large pieces, of which the
/// first has at least its first word. At Failed some first part of it was taken. It takes no memory.
pub fn write_blif<K: Sink>(net: &Network, latches: &[BlifLatch], out: &mut K) -> Result<(), Failed>
    requires { length latches.now ≡ length net.now.latches }
    ensures { Appends (K.state out.old) (K.state out.new) (blif_text net.now latches.now) result }
{
    let mut page = Page::of(b".model ");
    match put_network(net, latches, &mut page, out) {
        Ok(()) => {}
        Err(failed) => return Err(failed),
    }
    page.hand_on(out)
}
