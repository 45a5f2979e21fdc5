ghost use Rattle.std.specs.Prelude.{◌≡◌, ◌↔◌, ◌≤◌, ℕ, All, IsTrue, MatchBool, MatchOption};
ghost use Rattle.mv_base.specs.declared.limits.TheConstants.{MAX_VALUES};
ghost use Rattle.mv_base.specs.Set.{one, has};
ghost use Rattle.mv_net.specs.Index.{is_held};
ghost use Rattle.mv_net.specs.Plain.{IsPlainNet, IsPlainConstant, IsPlainBuffer, IsCopy, AreCopies, bare_set, steady_set, first_literal, first_net, some_has};

use crate::Network;
use mv_base::{MAX_VALUES, NetId, PackedSet, Value, ValueSet};
use mv_cover::{Cover, Line, Lit};

impl Network {
    /// Whether a held net has a table that is plainly deterministic. No memory.
    pub fn is_plainly_deterministic(&self, n: NetId) -> bool
        requires { IsTrue (is_held self.now.nets n.0) }
        ensures { MatchBool result (IsPlainNet self.now.nets n.0)
            (IsPlainNet self.now.nets n.0 → ⊥) }
    {
        match self.table(n) {
            Some(cover) => cover.plainly_deterministic(),
            None => false,
        }
    }

    /// The value of a held net whose table is a plain constant: one line without literals and with one value, or no line
    /// and one value as default. No memory.
    pub fn plain_constant(&self, n: NetId) -> Option<Value>
        requires { IsTrue (is_held self.now.nets n.0) }
        ensures { MatchOption result
            ((v : ℕ) → IsPlainConstant self.now.nets n.0 v → ⊥)
            (λ v. IsPlainConstant self.now.nets n.0 v.0) }
    {
        let Some(cover) = self.table(n) else {
            return None;
        };
        let Some(set) = steady_set(cover) else {
            return None;
        };
        only_value(set)
    }

    /// The net whose value a held net has where its table is a plain buffer: no default, and one line for each of the
    /// values, of which both nets have as many, and at least two. No memory.
    pub fn plain_buffer(&self, n: NetId) -> Option<NetId>
        requires { IsTrue (is_held self.now.nets n.0) }
        ensures { MatchOption result
            ((m : ℕ) → IsPlainBuffer self.now.nets n.0 m → ⊥)
            (λ m. IsPlainBuffer self.now.nets n.0 m.0) }
    {
        self.well_formed();
        let Some(cover) = self.table(n) else {
            return None;
        };
        let Some(read) = first_net(cover.lines.as_slice()) else {
            return None;
        };
        let values = self.values(n);
        if self.values(read) != values || cover.default.is_some() {
            return None;
        }
        if !are_copies(cover.lines.as_slice(), read, values) {
            return None;
        }
        Some(read)
    }
}

/// The set that the cover gives everywhere by its only line without literals, or by its default where it has no line.
fn steady_set(cover: &Cover) -> Option<ValueSet>
    ensures { result ≡ steady_set cover.now.lines cover.now.default }
{
    match cover.lines.as_slice() {
        [] => default_set(&cover.default),
        [line] => bare_set(line),
        _ => None,
    }
}

/// The default's set.
fn default_set(default: &Option<PackedSet>) -> Option<ValueSet>
    ensures { result ≡ default.now }
{
    match default {
        None => None,
        Some(out) => Some(out.get()),
    }
}

/// The set that a line without literals gives.
fn bare_set(line: &Line) -> Option<ValueSet>
    ensures { result ≡ bare_set line.now.cube line.now.out }
{
    match line.cube.lits() {
        [] => Some(line.out.get()),
        _ => None,
    }
}

/// The value of a set of one value.
fn only_value(set: ValueSet) -> Option<Value>
    ensures { MatchOption result ((v : ℕ) → set ≡ one v → ⊥) (λ v. set ≡ one v.0) }
{
    set.members_are_small();
    match set.least() {
        None => None,
        Some(value) => {
            if set == ValueSet::one(value) {
                return Some(value);
            }
            None
        }
    }
}

/// The net of the first literal of the first line.
fn first_net(lines: &[Line]) -> Option<NetId>
    ensures { result ≡ first_net lines.now }
{
    match lines {
        [] => None,
        [line, ..] => first_literal(line.cube.lits()),
    }
}

/// The net of the first literal.
fn first_literal(lits: &[Lit]) -> Option<NetId>
    ensures { result ≡ first_literal lits.now }
{
    match lits {
        [] => None,
        [literal, ..] => Some(literal.net()),
    }
}

/// Whether each of the lines gives a value of the net where the net has it, and together they give the values below the
/// number, which is at least two.
fn are_copies(lines: &[Line], net: NetId, values: u16) -> bool
    requires { values ≤ MAX_VALUES }
    ensures { MatchBool result (AreCopies values net.0 lines.now)
        (AreCopies values net.0 lines.now → ⊥) }
{
    if values < 2 {
        return false;
    }
    if !all_copy(lines, net) {
        return false;
    }
    values_given(lines) == ValueSet::full(values)
}

/// Whether each of the lines gives a value where the net has it.
fn all_copy(lines: &[Line], net: NetId) -> bool
    ensures { IsTrue result ↔ All (IsCopy net.0) lines.now }
{
    lines.iter().all(|line| is_copy(line, net))
}

/// Whether the line gives a value where the net has it.
fn is_copy(line: &Line, net: NetId) -> bool
    ensures { IsTrue result ↔ IsCopy net.0 line.now }
{
    match line.cube.lits() {
        [literal] => literal.net() == net
            && literal.set() == line.out.get()
            && only_value(line.out.get()).is_some(),
        _ => false,
    }
}

/// The values that some line gives.
fn values_given(lines: &[Line]) -> ValueSet
    ensures { (v : ℕ) → has result v ≡ some_has lines.now v }
{
    let mut given = ValueSet::empty();
    for line in lines {
        given = given.join(line.out.get());
    }
    given
}
