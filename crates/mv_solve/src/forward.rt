//! What is known of nets since their fanins leave them one value.
ghost use Rattle.std.specs.Prelude.{◌≤◌, IfSome, IsTrue};
ghost use Rattle.mv_net.specs.Index.{is_held};
ghost use Rattle.mv_net.specs.Order.{IsOrder};
ghost use Rattle.mv_solve.specs.Known.{HasPlaces, IsKnown, IsOnly, RefusesFrom};

use crate::Asked;
use crate::first::first_in;
use crate::known::{known_of, may_match, must_match};
use mv_base::{NetId, Value};
use mv_cover::Cover;
use mv_net::Network;

/// The first value from `start` on and below `end` that the cover may allow, for all that is known, or `end` where there
/// is none.
fn first_possible(known: &[Asked], cover: &Cover, start: u16, end: u16) -> u16
    ensures refuses { RefusesFrom known.now cover.now start result }
    ensures within { result ≤ end }
{
    let mut first = end;
    let mut some_match = false;
    for line in cover.lines.as_slice() {
        if may_match(known, line.cube.lits()) {
            first = first_in(&line.out, start, first);
            if must_match(known, line.cube.lits()) {
                some_match = true;
            }
        }
    }
    if some_match {
        return first;
    }
    match &cover.default {
        Some(out) => first_in(out, start, first),
        None => first,
    }
}

/// The only value that the net may have, for all that is known of its fanins, if there is just one.
fn only_possible(net: &Network, n: NetId, known: &[Asked]) -> Option<Value>
    requires { IsTrue (is_held net.now.nets n.0) }
    ensures { IfSome result (λ v. IsOnly net.now.nets known.now n.0 v.0) }
{
    let cover = net.table(n)?;
    let count = net.values(n);
    let first = first_possible(known, cover, 0, count);
    if first < count && first_possible(known, cover, first + 1, count) >= count {
        Some(Value(first))
    } else {
        None
    }
}

/// Goes through the nets in order, and notes the value of each that its fanins leave no other.
pub fn spread_forward(net: &Network, order: &[NetId], known: &mut [Asked])
    requires order { IsOrder net.now.nets order.now }
    requires room { HasPlaces net.now.nets known.old }
    ensures { IsKnown net.now.nets known.old known.new }
{
    for n in order {
        let before = known_of(known, *n);
        if before == Asked::Anything {
            if let Some(value) = only_possible(net, *n, known) {
                known[n.0 as usize] = before.and(value);
            }
        }
    }
}
