ghost use Rattle.std.specs.Prelude.{◌∷◌, [], decimal, codes, map};
ghost use Rattle.std.specs.List.{flat_map};
ghost use Rattle.mv_base.specs.Outside.{Appends};
ghost use Rattle.mv_page.specs.Page.{AddsPiece, paged};
ghost use Rattle.mv_lex.specs.Text.{spaced, line_text};
ghost use Rattle.mv_entry.specs.Entries.{Applied, set_word, lit_words, line_words, default_lines, body_lines, into_words, entry_text};

use crate::encode_text::put_encode;
use crate::page::Page;
use crate::set_text::put_set;
use crate::words::{put_number, put_numbers, put_pair, put_triple, put_word};
use crate::{Body, BodyLine, BodyLit, Rule};
use mv_base::{Failed, PackedSet, Sink, Value, ValueSet};

/// Puts a literal: the net and the set, each behind a space.
fn put_literal<E: Sink>(literal: &BodyLit, page: &mut Page, sink: &mut E) -> Result<(), Failed>
    ensures { AddsPiece (paged (E.state sink.old) page.old) (paged (E.state sink.new) page.new)
        (spaced (lit_words literal.now)) result }
{
    put_word(literal.net.bytes(), page, sink)?;
    page.put(b" ", sink)?;
    put_set(literal.set.get(), page, sink)
}

/// Puts literals, one after the other.
fn put_literals<E: Sink>(lits: &[BodyLit], page: &mut Page, sink: &mut E) -> Result<(), Failed>
    ensures { AddsPiece (paged (E.state sink.old) page.old) (paged (E.state sink.new) page.new)
        (spaced (flat_map lit_words lits.now)) result }
{
    for literal in lits {
        put_literal(literal, page, sink)?;
    }
    Ok(())
}

/// Puts a line of a body.
fn put_line<E: Sink>(line: &BodyLine, page: &mut Page, sink: &mut E) -> Result<(), Failed>
    ensures { AddsPiece (paged (E.state sink.old) page.old) (paged (E.state sink.new) page.new)
        (line_text (line_words line.now)) result }
{
    page.put(b"line", sink)?;
    put_literals(line.lits.as_slice(), page, sink)?;
    page.put(b" -> ", sink)?;
    put_set(line.out.get(), page, sink)?;
    page.put(b"\n", sink)
}

/// Puts lines of a body, one after the other.
fn put_lines<E: Sink>(lines: &[BodyLine], page: &mut Page, sink: &mut E) -> Result<(), Failed>
    ensures { AddsPiece (paged (E.state sink.old) page.old) (paged (E.state sink.new) page.new)
        (flat_map line_text (map line_words lines.now)) result }
{
    for line in lines {
        put_line(line, page, sink)?;
    }
    Ok(())
}

/// Puts the line of a default, if there is one.
fn put_default<E: Sink>(
    default: Option<ValueSet>,
    page: &mut Page,
    sink: &mut E,
) -> Result<(), Failed>
    ensures { AddsPiece (paged (E.state sink.old) page.old) (paged (E.state sink.new) page.new)
        (flat_map line_text (default_lines default)) result }
{
    match default {
        Some(set) => {
            page.put(b"default ", sink)?;
            put_set(set, page, sink)?;
            page.put(b"\n", sink)
        }
        None => Ok(()),
    }
}

/// Puts the lines of a body, with its end.
fn put_body<E: Sink>(body: &Body, page: &mut Page, sink: &mut E) -> Result<(), Failed>
    ensures { AddsPiece (paged (E.state sink.old) page.old) (paged (E.state sink.new) page.new)
        (flat_map line_text (body_lines body.now)) result }
{
    put_lines(body.lines.as_slice(), page, sink)?;
    put_default(body.default_set(), page, sink)?;
    page.put(b"end\n", sink)
}

/// Puts the first line of a rule that narrows the table of a net.
fn put_narrow<E: Sink>(
    net: &[u8],
    d: u16,
    u: u16,
    page: &mut Page,
    sink: &mut E,
) -> Result<(), Failed>
    ensures { AddsPiece (paged (E.state sink.old) page.old) (paged (E.state sink.new) page.new)
        (line_text (codes "narrow" ∷ net.now ∷ decimal d ∷ decimal u ∷ [])) result }
{
    page.put(b"narrow", sink)?;
    put_word(net, page, sink)?;
    put_numbers(u128::from(d), u128::from(u), page, sink)?;
    page.put(b"\n", sink)
}

/// Puts the value into which another goes, if there is one, behind a space.
fn put_into<E: Sink>(into: Option<Value>, page: &mut Page, sink: &mut E) -> Result<(), Failed>
    ensures { AddsPiece (paged (E.state sink.old) page.old) (paged (E.state sink.new) page.new)
        (spaced (into_words into)) result }
{
    match into {
        Some(value) => put_number(u128::from(value.0), page, sink),
        None => Ok(()),
    }
}

/// Puts the line of a rule by which a value goes.
fn put_merge<E: Sink>(
    net: &[u8],
    gone: Value,
    into: Option<Value>,
    page: &mut Page,
    sink: &mut E,
) -> Result<(), Failed>
    ensures { AddsPiece (paged (E.state sink.old) page.old) (paged (E.state sink.new) page.new)
        (line_text (codes "merge" ∷ net.now ∷ decimal gone.0 ∷ into_words into)) result }
{
    page.put(b"merge", sink)?;
    put_word(net, page, sink)?;
    put_number(u128::from(gone.0), page, sink)?;
    put_into(into, page, sink)?;
    page.put(b"\n", sink)
}

/// Puts the line of a rule that fills the table of a net.
fn put_fill<E: Sink>(
    net: &[u8],
    out: &PackedSet,
    page: &mut Page,
    sink: &mut E,
) -> Result<(), Failed>
    ensures { AddsPiece (paged (E.state sink.old) page.old) (paged (E.state sink.new) page.new)
        (line_text (codes "fill" ∷ net.now ∷ set_word out.now ∷ [])) result }
{
    page.put(b"fill", sink)?;
    put_word(net, page, sink)?;
    page.put(b" ", sink)?;
    put_set(out.get(), page, sink)?;
    page.put(b"\n", sink)
}

/// Puts the lines of a rule.
fn put_rule_text<E: Sink>(rule: &Rule, page: &mut Page, sink: &mut E) -> Result<(), Failed>
    ensures { AddsPiece (paged (E.state sink.old) page.old) (paged (E.state sink.new) page.new)
        (entry_text (Applied rule.now)) result }
{
    match rule {
        Rule::Remove { net } => put_pair(b"remove", net.bytes(), page, sink),
        Rule::Add { net, body } => {
            put_pair(b"add", net.bytes(), page, sink)?;
            put_body(body, page, sink)
        }
        Rule::Divide { net, by, body } => {
            put_triple(b"divide", net.bytes(), by.bytes(), page, sink)?;
            put_body(body, page, sink)
        }
        Rule::Wire { net } => put_pair(b"wire", net.bytes(), page, sink),
        Rule::Collapse { net } => put_pair(b"collapse", net.bytes(), page, sink),
        Rule::Narrow { net, d, u, body } => {
            put_narrow(net.bytes(), *d, *u, page, sink)?;
            put_body(body, page, sink)
        }
        Rule::Merge { net, gone, into } => put_merge(net.bytes(), *gone, *into, page, sink),
        Rule::Encode { net, names, codes } => {
            put_encode(net.bytes(), names.as_slice(), codes.as_slice(), page, sink)
        }
        Rule::Fill { net, out } => put_fill(net.bytes(), out, page, sink),
    }
}

/// Appends the lines of a rule to the sink, in large pieces: in one where they fit a page. It takes no memory.
pub fn put_rule<E: Sink>(rule: &Rule, sink: &mut E) -> Result<(), Failed>
    ensures { Appends (E.state sink.old) (E.state sink.new) (entry_text (Applied rule.now)) result }
{
    let mut page = Page::of(b"");
    match put_rule_text(rule, &mut page, sink) {
        Ok(()) => {}
        Err(failed) => return Err(failed),
    }
    page.hand_on(sink)
}
