ghost use Rattle.std.specs.Prelude.{◌≡◌, IsTrue, MatchOption, option_copied, slice_index};
ghost use Rattle.mv_base.specs.Set.{has};
ghost use Rattle.mv_cover.specs.Cubes.{matches};
ghost use Rattle.mv_cover.specs.Covers.{allowed};
ghost use Rattle.mv_net.specs.Index.{is_held};
ghost use Rattle.mv_net.specs.Allowed.{net_table_allows};
ghost use Rattle.mv_solve.specs.Asked.{may_have};
ghost use Rattle.mv_solve.specs.First.{IsFirst, IsLeast, NoneFrom};

use crate::Asked;
use mv_base::{NetId, PackedSet, Value};
use mv_cover::{Cover, Lit};
use mv_net::Network;

/// The value of a net, by its number.
pub fn value_of(values: &[u16], n: NetId) -> Value
    ensures { result.0 ≡ slice_index values.now n.0 }
{
    match values.get(n.0 as usize) {
        Some(value) => Value(*value),
        None => Value(0),
    }
}

/// Whether every literal holds where the nets have these values.
fn all_hold(values: &[u16], cube: &[Lit]) -> bool
    ensures { result ≡ matches (slice_index values.now) cube.now }
{
    cube.iter()
        .all(|literal| literal.has(value_of(values, literal.net())))
}

/// The first value of the set from `start` on and below `end`, or `end` where there is none.
pub fn first_in(set: &PackedSet, start: u16, end: u16) -> u16
    ensures { IsFirst (has set.now) start end result }
{
    for value in start..end {
        if set.has(Value(value)) {
            return value;
        }
    }
    end
}

/// The first value from `start` on and below `end` that the cover allows where the nets have these values, or `end`
/// where there is none.
fn first_allowed(values: &[u16], cover: &Cover, start: u16, end: u16) -> u16
    ensures { IsFirst (allowed cover.now (slice_index values.now)) start end result }
{
    let mut first = end;
    let mut some_match = false;
    for line in cover.lines.as_slice() {
        if all_hold(values, line.cube.lits()) {
            first = first_in(&line.out, start, first);
            some_match = true;
        }
    }
    if some_match {
        return first;
    }
    match &cover.default {
        Some(out) => first_in(out, start, first),
        None => first,
    }
}

/// The first value from `start` on and below `end` that the table, if there is one, allows where the nets have these
/// values, or `end` where there is none.
fn first_of_table(values: &[u16], table: Option<&Cover>, start: u16, end: u16) -> u16
    ensures { IsFirst (net_table_allows (option_copied table.entry) (slice_index values.now))
        start end result }
{
    match table {
        Some(cover) => first_allowed(values, cover, start, end),
        None => start.min(end),
    }
}

/// The least value from `start` on that the net may have, if there is one: it is asked for, and the table allows it
/// where the nets have these values.
pub fn least_value(
    net: &Network,
    n: NetId,
    asked: Asked,
    values: &[u16],
    start: u32,
) -> Option<Value>
    requires { IsTrue (is_held net.now.nets n.0) }
    ensures { let may = may_have net.now.nets asked (slice_index values.now) n.0 in
        MatchOption result (NoneFrom may start) (λ v. IsLeast may start v.0) }
{
    let (low, high) = asked.narrow(start, net.values(n));
    let first = first_of_table(values, net.table(n), low, high);
    if first < high {
        Some(Value(first))
    } else {
        None
    }
}
