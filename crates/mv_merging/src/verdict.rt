ghost use Rattle.std.specs.Prelude.{◌≡◌, ◌&&◌, ◌||◌, not, true, false, IsTrue, MatchBool, Some};
ghost use Rattle.std.specs.List.{list_any};
ghost use Rattle.mv_base.specs.Set.{has};
ghost use Rattle.mv_base.specs.declared.number.NetId.{NetId as a_net};
ghost use Rattle.mv_cover.specs.Covers.{default_gives};
ghost use Rattle.mv_cover.specs.declared.line.Line.{Line as a_line};
ghost use Rattle.mv_net.specs.Index.{is_held};
ghost use Rattle.mv_net.specs.Nets.{slot, table_in};
ghost use Rattle.mv_merging.specs.Verdicts.{AreAlike, AreMergeable, IsMergeLossless, IsMergeVerdict, IsNeverGiven, IsOther};
ghost use Rattle.mv_merging.specs.Verdicts as spec;

use mv_base::{NetId, PackedSet, Value};
use mv_cover::{Cover, Line, Lit};
use mv_net::Network;

/// What becomes of a net of which values are to be merged: the first that holds.
#[derive(Clone, Copy, Debug, PartialEq, Eq)]
pub enum MergeVerdict {
    /// A value isn't one of the net's, the two are one, or the net has no other value.
    Form,
    /// A literal tells the two values apart, or the net can have the one that is to go.
    NotSame,
    /// None of that: the values may be merged.
    Lawful,
}

/// What becomes of a held net of which one value is to go, into another or into none. No memory.
pub fn merge_verdict(net: &Network, n: NetId, gone: Value, into: Option<Value>) -> MergeVerdict
    requires { IsTrue (is_held net.now.nets n.0) }
    ensures { IsMergeVerdict net.now n.0 gone into result }
{
    if !are_mergeable(net.values(n), gone, into) {
        return MergeVerdict::Form;
    }
    if !is_lossless(net, n, gone, into) {
        return MergeVerdict::NotSame;
    }
    MergeVerdict::Lawful
}

/// Whether of so many values, more than one, the one can go, into the other if there is one.
fn are_mergeable(values: u16, gone: Value, into: Option<Value>) -> bool
    ensures { MatchBool result (AreMergeable values gone into) (AreMergeable values gone into → ⊥) }
{
    if values < 2 {
        return false;
    }
    if gone.0 >= values {
        return false;
    }
    is_other(values, gone, into)
}

/// Whether the value that is to take the other's place, if there is one, is one of so many, and another.
fn is_other(values: u16, gone: Value, into: Option<Value>) -> bool
    ensures { MatchBool result (IsOther values gone into) (IsOther values gone into → ⊥) }
{
    match into {
        None => true,
        Some(into) => is_apart(values, gone, into),
    }
}

/// Whether the value is one of so many, and another.
fn is_apart(values: u16, gone: Value, into: Value) -> bool
    ensures { MatchBool result (IsOther values gone (Some into))
        (IsOther values gone (Some into) → ⊥) }
{
    if into.0 >= values {
        return false;
    }
    if into.0 == gone.0 {
        return false;
    }
    true
}

/// Whether nothing is lost where the one value goes.
fn is_lossless(net: &Network, n: NetId, gone: Value, into: Option<Value>) -> bool
    requires { IsTrue (is_held net.now.nets n.0) }
    ensures { MatchBool result (IsMergeLossless net.now.nets n.0 gone into)
        (IsMergeLossless net.now.nets n.0 gone into → ⊥) }
{
    match into {
        None => is_never_given(net, n, gone),
        Some(into) => are_alike(net, n, into, gone),
    }
}

/// Whether the net's table never gives the value.
fn is_never_given(net: &Network, n: NetId, v: Value) -> bool
    requires { IsTrue (is_held net.now.nets n.0) }
    ensures { MatchBool result (IsNeverGiven net.now.nets n.0 v.0)
        (IsNeverGiven net.now.nets n.0 v.0 → ⊥) }
{
    !table_has(net, n, v)
}

/// Whether the value stands in an output of the net's table or in its default.
fn table_has(net: &Network, n: NetId, v: Value) -> bool
    requires { IsTrue (is_held net.now.nets n.0) }
    ensures { result ≡ spec.table_has v.0 (table_in (slot net.now.nets n.0)) }
{
    match net.table(n) {
        None => false,
        Some(cover) => cover_has(cover, v),
    }
}

/// Whether the value stands in an output of the cover or in its default.
fn cover_has(cover: &Cover, v: Value) -> bool
    ensures { result ≡ spec.cover_has v.0 cover.now }
{
    output_has(cover.lines.as_slice(), v) || default_has(&cover.default, v)
}

/// Whether the value stands in an output of the lines.
fn output_has(lines: &[Line], v: Value) -> bool
    ensures { result ≡ list_any (λ (l : a_line). has l.out v.0) lines.now }
{
    lines.iter().any(|line| line.out.has(v))
}

/// Whether the value stands in the default.
fn default_has(default: &Option<PackedSet>, v: Value) -> bool
    ensures { result ≡ default_gives default.now v.0 }
{
    match default {
        None => false,
        Some(out) => out.has(v),
    }
}

/// Whether no table tells the two values of the net apart.
fn are_alike(net: &Network, n: NetId, u: Value, v: Value) -> bool
    requires { IsTrue (is_held net.now.nets n.0) }
    ensures { MatchBool result (AreAlike net.now.nets n.0 u.0 v.0)
        (AreAlike net.now.nets n.0 u.0 v.0 → ⊥) }
{
    !some_splits(net, net.readers(n), n, u, v)
}

/// Whether the table of some of these nets tells the two values of the net apart.
fn some_splits(net: &Network, readers: &[NetId], n: NetId, u: Value, v: Value) -> bool
    ensures { result
        ≡ list_any (λ (m : a_net). spec.table_splits n.0 u.0 v.0
        (table_in (slot net.now.nets m.0))) readers.now }
{
    readers.iter().any(|m| table_splits(net, *m, n, u, v))
}

/// Whether the table of the net `m`, if it has one, tells the two values of the net `n` apart.
fn table_splits(net: &Network, m: NetId, n: NetId, u: Value, v: Value) -> bool
    ensures { result ≡ spec.table_splits n.0 u.0 v.0 (table_in (slot net.now.nets m.0)) }
{
    if net.holds(m) {
        return held_splits(net, m, n, u, v);
    }
    false
}

/// The same of a net that is held.
fn held_splits(net: &Network, m: NetId, n: NetId, u: Value, v: Value) -> bool
    requires { IsTrue (is_held net.now.nets m.0) }
    ensures { result ≡ spec.table_splits n.0 u.0 v.0 (table_in (slot net.now.nets m.0)) }
{
    match net.table(m) {
        None => false,
        Some(cover) => cover_splits(cover, n, u, v),
    }
}

/// Whether some literal of the cover is on the net and has just one of the two values.
fn cover_splits(cover: &Cover, n: NetId, u: Value, v: Value) -> bool
    ensures { result ≡ spec.cover_splits n.0 u.0 v.0 cover.now }
{
    let lines = cover.lines.as_slice();
    lines
        .iter()
        .any(|line| cube_splits(line.cube.lits(), n, u, v))
}

/// Whether some literal of a cube is so.
fn cube_splits(lits: &[Lit], n: NetId, u: Value, v: Value) -> bool
    ensures { result ≡ list_any (spec.literal_splits n.0 u.0 v.0) lits.now }
{
    lits.iter().any(|l| literal_splits(l, n, u, v))
}

/// Whether the literal is on the net and has just one of the two values.
fn literal_splits(l: &Lit, n: NetId, u: Value, v: Value) -> bool
    ensures { result ≡ spec.literal_splits n.0 u.0 v.0 l.now }
{
    l.net().0 == n.0 && splits(l, u, v)
}

/// Whether the literal has just one of the two values.
fn splits(l: &Lit, u: Value, v: Value) -> bool
    ensures { result ≡ spec.splits u.0 v.0 l.now.set }
{
    l.has(u) != l.has(v)
}
