ghost use Rattle.std.specs.Prelude.{◌∷◌, ◌++◌, []};
ghost use Rattle.std.specs.List.{flat_map};
ghost use Rattle.mv_base.specs.Outside.{Appends};
ghost use Rattle.mv_lex.specs.Text.{line_text};
ghost use Rattle.mv_page.specs.Page.{AddsPiece, paged};
ghost use Rattle.mv_write.specs.Opened.{ports_text, unopened};
ghost use Rattle.mv_text.specs.Text.{inner_lines, text_of};

use crate::declarations::put_declarations;
use crate::latches::put_latches;
use crate::page::Page;
use crate::pieces::put_list;
use crate::tables::put_tables;
use mv_base::{Failed, Sink};
use mv_net::Network;

/// Puts what stands behind the first word of the root's line.
fn put_root<K: Sink>(root: &[u8], page: &mut Page, out: &mut K) -> Result<(), Failed>
    ensures { AddsPiece (paged (K.state out.old) page.old) (paged (K.state out.new) page.new)
        (root.now ++ 10 ∷ []) result }
{
    page.put_both(root, b"\n", out)
}

/// Appends the lines between the outputs and the end.
fn put_inner<K: Sink>(net: &Network, page: &mut Page, out: &mut K) -> Result<(), Failed>
    ensures { AddsPiece (paged (K.state out.old) page.old) (paged (K.state out.new) page.new)
        (flat_map line_text (inner_lines net.now)) result }
{
    put_declarations(net, page, out)?;
    put_latches(net, page, out)?;
    put_tables(net, page, out)
}

/// Puts the lines of the root, the inputs and the outputs of a network, from behind the first word.
pub fn put_ports<K: Sink>(net: &Network, page: &mut Page, out: &mut K) -> Result<(), Failed>
    ensures { AddsPiece (paged (K.state out.old) page.old) (paged (K.state out.new) page.new)
        (ports_text net.now) result }
{
    net.well_formed();
    put_root(net.root(), page, out)?;
    put_list(b".inputs", net, net.inputs(), page, out)?;
    put_list(b".outputs", net, net.outputs(), page, out)
}

/// Puts the lines of a network, from behind the first word.
fn put_network<K: Sink>(net: &Network, page: &mut Page, out: &mut K) -> Result<(), Failed>
    ensures { AddsPiece (paged (K.state out.old) page.old) (paged (K.state out.new) page.new)
        (unopened net.now (inner_lines net.now)) result }
{
    put_ports(net, page, out)?;
    put_inner(net, page, out)?;
    page.put(b".end\n", out)
}

/// Appends the text of a network to the sink, in large pieces, of which the first has at least its first word. At Failed
/// some first part of it was taken. It takes no memory.
pub fn write<K: Sink>(net: &Network, out: &mut K) -> Result<(), Failed>
    ensures { Appends (K.state out.old) (K.state out.new) (text_of net.now) result }
{
    let mut page = Page::of(b".model ");
    match put_network(net, &mut page, out) {
        Ok(()) => {}
        Err(failed) => return Err(failed),
    }
    page.hand_on(out)
}
