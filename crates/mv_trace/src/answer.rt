ghost use Rattle.std.specs.Prelude.{◌<◌, ◌≤◌, length, map};
ghost use Rattle.mv_base.specs.Outside.{Appends};
ghost use Rattle.mv_page.specs.Page.{AddsPiece, paged};
ghost use Rattle.mv_lex.specs.Text.{spaced};
ghost use Rattle.mv_net.specs.Nets.{slot};
ghost use Rattle.mv_trace.specs.Answer.{word_if, words_from, net_name, net_value, at_of};
ghost use Rattle.mv_trace.specs.Answer.{names_line, step_line, no_text};
ghost use Rattle.std.specs.List.{enumerate_from};

use itoa::Buffer;
use mv_base::{Failed, NetId, Sink, Value, put_both};
use mv_net::Network;

/// The page in which an answer is gathered. That of an allowed run begins with `yes` and a line feed.
pub type AnswerPage = mv_page::Page<0>;

/// Appends the name of the net of this number, behind a space, if it is held.
fn put_name<K: Sink>(
    net: &Network,
    n: NetId,
    page: &mut AnswerPage,
    out: &mut K,
) -> Result<(), Failed>
    ensures { AddsPiece (paged (K.state out.old) page.old) (paged (K.state out.new) page.new)
        (spaced (word_if (net_name n.0) (slot net.now.nets n.0))) result }
{
    if !net.holds(n) {
        return Ok(());
    }
    page.put_both(b" ", net.name(n), out)
}

/// Appends the names of all nets, each behind a space.
fn put_all_names<K: Sink>(net: &Network, page: &mut AnswerPage, out: &mut K) -> Result<(), Failed>
    ensures { AddsPiece (paged (K.state out.old) page.old) (paged (K.state out.new) page.new)
        (spaced (words_from net_name (enumerate_from 0 net.now.nets))) result }
{
    for n in 0..net.next_number() {
        put_name(net, NetId(n), page, out)?;
    }
    Ok(())
}

/// Appends the value of the net of this number, behind a space, if it is held.
fn put_value<K: Sink>(
    net: &Network,
    n: NetId,
    values: &[Value],
    page: &mut AnswerPage,
    out: &mut K,
) -> Result<(), Failed>
    requires { n.0 < length values.now }
    ensures { AddsPiece (paged (K.state out.old) page.old) (paged (K.state out.new) page.new)
        (spaced (word_if (net_value (at_of (map (λ v. v.0) values.now)) n.0)
        (slot net.now.nets n.0))) result }
{
    if !net.holds(n) {
        return Ok(());
    }
    let value = values[n.0 as usize].0;
    let mut buffer = Buffer::new();
    page.put_both(b" ", buffer.format(value).as_bytes(), out)
}

/// Appends the values of all nets, each behind a space.
fn put_all_values<K: Sink>(
    net: &Network,
    values: &[Value],
    page: &mut AnswerPage,
    out: &mut K,
) -> Result<(), Failed>
    requires { length net.now.nets ≤ length values.now }
    ensures { AddsPiece (paged (K.state out.old) page.old) (paged (K.state out.new) page.new)
        (spaced (words_from (net_value (at_of (map (λ v. v.0) values.now)))
        (enumerate_from 0 net.now.nets))) result }
{
    for n in 0..net.next_number() {
        put_value(net, NetId(n), values, page, out)?;
    }
    Ok(())
}

/// Appends the line of the names of all nets, by ascending number. It takes no memory.
pub fn put_names<K: Sink>(net: &Network, page: &mut AnswerPage, out: &mut K) -> Result<(), Failed>
    ensures { AddsPiece (paged (K.state out.old) page.old) (paged (K.state out.new) page.new)
        (names_line net.now.nets) result }
{
    page.put(b"nets", out)?;
    put_all_names(net, page, out)?;
    page.put(b"\n", out)
}

/// Appends the line of a step of this number, with the values of all nets under an assignment, which has the value of
/// each net at the place of its number. It takes no memory.
pub fn put_step<K: Sink>(
    net: &Network,
    step: u32,
    values: &[Value],
    page: &mut AnswerPage,
    out: &mut K,
) -> Result<(), Failed>
    requires { length net.now.nets ≤ length values.now }
    ensures { AddsPiece (paged (K.state out.old) page.old) (paged (K.state out.new) page.new)
        (step_line net.now.nets step (at_of (map (λ v. v.0) values.now))) result }
{
    let mut buffer = Buffer::new();
    page.put_both(b"step ", buffer.format(step).as_bytes(), out)?;
    put_all_values(net, values, page, out)?;
    page.put(b"\n", out)
}

/// Appends the answer of a run whose step of this number is the first that isn't allowed. It takes no memory.
pub fn put_no<K: Sink>(step: u32, out: &mut K) -> Result<(), Failed>
    ensures { Appends (K.state out.old) (K.state out.new) (no_text step) result }
{
    let mut buffer = Buffer::new();
    put_both(b"no ", buffer.format(step).as_bytes(), out)?;
    out.put(b"\n")
}
