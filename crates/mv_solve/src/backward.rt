//! What is known of the fanins of nets since these have one value.
ghost use Rattle.std.specs.Prelude.{◌≡◌, IfSome, IsTrue, true, not};
ghost use Rattle.mv_base.specs.Set.{has};
ghost use Rattle.std.specs.List.{list_any};
ghost use Rattle.mv_cover.specs.Covers.{default_gives};
ghost use Rattle.mv_net.specs.Index.{is_held};
ghost use Rattle.mv_net.specs.Order.{IsOrder};
ghost use Rattle.mv_solve.specs.Asked.{asked_of};
ghost use Rattle.mv_solve.specs.Known.{AreReadsHeld, HasPlaces, IsKnown, IsMatch, IsNoMatch};
ghost use Rattle.mv_solve.specs.Known.{is_only, IsOnlyLine, IsOnlyValue, IsOpen, IsTold, may_give};

use crate::Asked;
use crate::known::{known_of, may_match};
use mv_base::{NetId, Value};
use mv_cover::{Cover, Line, Lit};
use mv_net::Network;

/// The only value below `count` that is in the literal's set, or that is not, if there is just one.
fn only_value(literal: &Lit, inside: bool, count: u16) -> Option<Value>
    ensures { IfSome result (λ v. IsOnlyValue (has literal.now.set) inside count v.0) }
{
    let mut only = None;
    for number in 0..count {
        if literal.has(Value(number)) == inside {
            if only.is_some() {
                return None;
            }
            only = Some(Value(number));
        }
    }
    only
}

/// The literal holds, or doesn't hold: where that leaves its net one value it is noted.
fn note(net: &Network, literal: &Lit, holds: bool, known: &mut [Asked])
    requires held { is_held net.now.nets literal.now.net.0 ≡ true }
    requires room { HasPlaces net.now.nets known.old }
    requires told { IsTold net.now.nets known.old literal.now holds }
    ensures { IsKnown net.now.nets known.old known.new }
{
    let n = literal.net();
    if let Some(value) = only_value(literal, holds, net.values(n)) {
        let number = n.0 as usize;
        known[number] = known[number].and(value);
    }
}

/// All literals hold.
fn note_match(net: &Network, cube: &[Lit], known: &mut [Asked])
    requires room { HasPlaces net.now.nets known.old }
    requires told { IsMatch net.now.nets known.old cube.now }
    ensures { IsKnown net.now.nets known.old known.new }
{
    for literal in cube {
        note(net, literal, true, known);
    }
}

/// The only literal that isn't known to hold, if there is just one.
fn only_open<'a>(cube: &'a [Lit], known: &[Asked]) -> Option<&'a Lit>
    ensures { IfSome result (λ l. IsOpen known.now cube.now l.now) }
{
    let mut open = None;
    for literal in cube {
        if !known_of(known, literal.net()).must_hold(literal) {
            if open.is_some() {
                return None;
            }
            open = Some(literal);
        }
    }
    open
}

/// No line's cube holds.
fn note_no_match(net: &Network, lines: &[Line], known: &mut [Asked])
    requires room { HasPlaces net.now.nets known.old }
    requires told { IsNoMatch net.now.nets known.old lines.now }
    ensures { IsKnown net.now.nets known.old known.new }
{
    for line in lines {
        if let Some(literal) = only_open(line.cube.lits(), known) {
            note(net, literal, false, known);
        }
    }
}

/// Whether the line may hold, for all that is known, and gives the value.
fn may_give(known: &[Asked], line: &Line, value: Value) -> bool
    ensures { result ≡ may_give known.now value.0 line.now }
{
    line.out.has(value) && may_match(known, line.cube.lits())
}

/// The only line that may give the value, if there is just one.
fn only_line<'a>(known: &[Asked], lines: &'a [Line], value: Value) -> Option<&'a Line>
    ensures { IfSome result (λ l. IsOnlyLine known.now lines.now value.0 l.now) }
{
    let mut only = None;
    for line in lines {
        if may_give(known, line, value) {
            if only.is_some() {
                return None;
            }
            only = Some(line);
        }
    }
    only
}

/// Whether some line may give the value.
fn some_may_give(known: &[Asked], lines: &[Line], value: Value) -> bool
    ensures { result ≡ list_any (may_give known.now value.0) lines.now }
{
    lines.iter().any(|line| may_give(known, line, value))
}

/// Whether the default gives the value.
fn default_gives(cover: &Cover, value: Value) -> bool
    ensures { result ≡ default_gives cover.now.default value.0 }
{
    match &cover.default {
        Some(out) => out.has(value),
        None => false,
    }
}

/// The net has this value: where its table has one way to give it, what that takes is noted.
fn note_way(net: &Network, n: NetId, value: Value, known: &mut [Asked])
    requires held { IsTrue (is_held net.now.nets n.0) }
    requires reads { AreReadsHeld net.now.nets }
    requires room { HasPlaces net.now.nets known.old }
    requires value { asked_of known.old n.0 ≡ Asked.Only value }
    ensures { IsKnown net.now.nets known.old known.new }
{
    let Some(cover) = net.table(n) else {
        return;
    };
    let lines = cover.lines.as_slice();
    if default_gives(cover, value) {
        if !some_may_give(known, lines, value) {
            note_no_match(net, lines, known);
        }
    } else if let Some(line) = only_line(known, lines, value) {
        note_match(net, line.cube.lits(), known);
    }
}

/// Whether more than one value is left of one of these nets.
fn some_open(known: &[Asked], nets: &[NetId]) -> bool
    ensures { result ≡ list_any (λ m. not (is_only (asked_of known.now m.0))) nets.now }
{
    nets.iter().any(|m| !known_of(known, *m).is_only())
}

/// Goes through the nets from the last to the first, and notes what the value of each takes.
pub fn spread_backward(net: &Network, order: &[NetId], known: &mut [Asked])
    requires order { IsOrder net.now.nets order.now }
    requires room { HasPlaces net.now.nets known.old }
    ensures { IsKnown net.now.nets known.old known.new }
{
    let mut place = order.len();
    while place > 0 {
        place -= 1;
        let n = order[place];
        if let Asked::Only(value) = known_of(known, n) {
            if some_open(known, net.fanins(n)) {
                note_way(net, n, value, known);
            }
        }
    }
}
