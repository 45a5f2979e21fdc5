ghost use Rattle.std.specs.Prelude.{◌≡◌, ◌≤◌, ℕ, MatchOption};
ghost use Rattle.std.specs.List.{list_any};
ghost use Rattle.mv_base.specs.declared.limits.TheConstants.{MAX_VALUES as limit};
ghost use Rattle.mv_base.specs.Set.{has};
ghost use Rattle.mv_alike.specs.Given.{IsEachGiven, IsLeastAbsent};
ghost use Rattle.mv_cover.specs.Covers.{default_gives};
ghost use Rattle.mv_cover.specs.declared.line.Line.{Line as a_line};
ghost use Rattle.mv_merging.specs.Verdicts.{cover_has};

use mv_base::{PackedSet, Value, ValueSet};
use mv_cover::{Cover, Line};

/// The least of so many values that stands in no output of the cover and not in its default, if there is one.
pub(crate) fn least_ungiven(cover: &Cover, values: u16) -> Option<Value>
    requires { values ≤ limit }
    ensures { MatchOption result (IsEachGiven values cover.now)
        (λ v. IsLeastAbsent values cover.now v.0) }
{
    ValueSet::full(values).minus(given(cover)).least()
}

/// The values that stand in an output of the cover or in its default.
fn given(cover: &Cover) -> ValueSet
    ensures { (v : ℕ) → has result v ≡ cover_has v cover.now }
{
    outputs(cover.lines.as_slice()).join(default_values(&cover.default))
}

/// The values that stand in an output of the lines.
fn outputs(lines: &[Line]) -> ValueSet
    ensures { (v : ℕ) → has result v ≡ list_any (λ (l : a_line). has l.out v) lines.now }
{
    let mut all = ValueSet::empty();
    for line in lines {
        all = all.join(line.out.get());
    }
    all
}

/// The values of the default.
fn default_values(default: &Option<PackedSet>) -> ValueSet
    ensures { (v : ℕ) → has result v ≡ default_gives default.now v }
{
    match default {
        None => ValueSet::empty(),
        Some(out) => out.get(),
    }
}
