ghost use Rattle.std.specs.Prelude.{◌≡◌, ◌≤◌, MatchOption, length};
ghost use Rattle.mv_base.specs.declared.limits.TheConstants.{MAX_VALUES as limit};
ghost use Rattle.mv_alike.specs.Classes.{AreNumbered};
ghost use Rattle.mv_alike.specs.Pairs.{AreAllApart, IsFirstPair};
ghost use Rattle.mv_alike.specs.Pairs as spec;

use mv_base::Value;

/// Two values, the lesser first.
#[derive(Clone, Copy)]
pub(crate) struct Pair {
    pub low: Value,
    pub high: Value,
}

/// The first two values of one class, by the lesser and then by the greater.
pub(crate) fn first_pair(classes: &[u16]) -> Option<Pair>
    requires few { length classes.now ≤ limit }
    requires numbered { AreNumbered classes.now }
    ensures { MatchOption result (AreAllApart classes.now (length classes.now))
        (IsFirstPair classes.now (length classes.now)) }
{
    let mut first = None;
    for (at, class) in classes.iter().enumerate() {
        first = earlier(first, *class, at as u16);
    }
    first
}

/// The pair of these two, unless they are one value or a pair with as low a value came before.
fn earlier(first: Option<Pair>, low: u16, high: u16) -> Option<Pair>
    ensures { result ≡ spec.earlier first low high }
{
    if is_earlier(first, low, high) {
        return Some(Pair {
            low: Value(low),
            high: Value(high),
        });
    }
    first
}

/// Whether these are two values, and no pair with as low a value came before.
fn is_earlier(first: Option<Pair>, low: u16, high: u16) -> bool
    ensures { result ≡ spec.is_earlier first low high }
{
    match first {
        None => low != high,
        Some(pair) => low != high && low < pair.low.0,
    }
}
