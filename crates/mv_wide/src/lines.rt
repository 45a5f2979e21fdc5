ghost use Rattle.std.specs.Prelude.{◌≡◌, ◌<◌, ℕ, None, Some, length, slice_index, IfOk, MatchBool, if◌then◌else◌};
ghost use Rattle.mv_base.specs.Set.{has, join, one};
ghost use Rattle.mv_base.specs.declared.limits.TheConstants.{MAX_VALUES as most_values};
ghost use Rattle.mv_cover.specs.Covers.{cube_reads};
ghost use Rattle.mv_factors.specs.Families.{set_at};
ghost use Rattle.mv_wide.specs.Choosing.{AreListed, Hits, and_in, in_line};
ghost use Rattle.mv_wide.specs.Wides.{IsReady};

use crate::choices::{choose_line, narrow};
use crate::frame::Frame;
use mv_base::{Memory, NetId, Value, ValueSet};
use mv_cover::Line;
use mv_factors::Factors;

/// Whether some point of the line's cube is outside with a value of the line's output.
pub fn hits_line(
    factors: &mut Factors,
    choices: &mut Vec<ValueSet>,
    frame: &Frame,
    line: &Line,
) -> Result<bool, Memory>
    requires { IsReady factors.old frame.now }
    ensures same { factors.new ≡ factors.old }
    ensures hits { IfOk result (λ hits.
        AreListed frame.now.counts.items frame.now.vars.items (cube_reads line.now.cube)
        → MatchBool hits
        (Hits frame.now.counts.items (λ p. set_at factors.old 0 p)
        (in_line None frame.now.vars.items frame.now.own line.now))
        (Hits frame.now.counts.items (λ p. set_at factors.old 0 p)
        (in_line None frame.now.vars.items frame.now.own line.now) → ⊥)) }
{
    let counts = frame.counts.as_slice();
    if !choose_line(
        choices,
        counts,
        line,
        frame.vars.as_slice(),
        frame.own,
        None,
    )? {
        return Ok(false);
    }
    Ok(factors.meets(0, choices.as_slice()))
}

/// Whether some point is where a variable has this value, and but for the literals of the line's cube on a net the line has
/// it.
fn hits_value(
    factors: &mut Factors,
    choices: &mut Vec<ValueSet>,
    frame: &Frame,
    line: &Line,
    left_out: NetId,
    var: u32,
    value: u16,
) -> Result<bool, Memory>
    requires ready { IsReady factors.old frame.now }
    requires var { var < length frame.now.counts.items }
    requires value { value < slice_index frame.now.counts.items var }
    ensures same { factors.new ≡ factors.old }
    ensures hits { IfOk result (λ hits.
        AreListed frame.now.counts.items frame.now.vars.items (cube_reads line.now.cube)
        → MatchBool hits
        (Hits frame.now.counts.items (λ p. set_at factors.old 0 p)
        (and_in (in_line (Some left_out) frame.now.vars.items frame.now.own line.now) var (one value)))
        (Hits frame.now.counts.items (λ p. set_at factors.old 0 p)
        (and_in (in_line (Some left_out) frame.now.vars.items frame.now.own line.now) var (one value))
        → ⊥)) }
{
    let counts = frame.counts.as_slice();
    let vars = frame.vars.as_slice();
    if !choose_line(choices, counts, line, vars, frame.own, Some(left_out))? {
        return Ok(false);
    }
    if !narrow(choices, var, ValueSet::one(Value(value))) {
        return Ok(false);
    }
    Ok(factors.meets(0, choices.as_slice()))
}

/// The set with a value too, if so told.
fn with_value(set: ValueSet, value: u16, is: bool) -> ValueSet
    requires { value < most_values }
    ensures { result ≡ (if is then join set (one value) else set) }
{
    if is {
        set.join(ValueSet::one(Value(value)))
    } else {
        set
    }
}

/// The values of a fanin with which some point of the line, its literals on the fanin left out, is outside with a value of the
/// line's output.
pub fn values_hit(
    factors: &mut Factors,
    choices: &mut Vec<ValueSet>,
    frame: &Frame,
    line: &Line,
    fanin: NetId,
) -> Result<ValueSet, Memory>
    requires { IsReady factors.old frame.now }
    ensures same { factors.new ≡ factors.old }
    ensures hits { IfOk result (λ set. fanin.0 < length frame.now.vars.items
        → slice_index frame.now.vars.items fanin.0 < length frame.now.counts.items
        → AreListed frame.now.counts.items frame.now.vars.items (cube_reads line.now.cube)
        → (u : ℕ) → MatchBool (has set u)
        (Hits frame.now.counts.items (λ p. set_at factors.old 0 p)
        (and_in (in_line (Some fanin) frame.now.vars.items frame.now.own line.now)
        (slice_index frame.now.vars.items fanin.0) (one u)))
        (Hits frame.now.counts.items (λ p. set_at factors.old 0 p)
        (and_in (in_line (Some fanin) frame.now.vars.items frame.now.own line.now)
        (slice_index frame.now.vars.items fanin.0) (one u)) → ⊥)) }
{
    let mut hit = ValueSet::empty();
    let place = fanin.0 as usize;
    if place >= frame.vars.len() {
        return Ok(hit);
    }
    let var = frame.vars[place];
    if var as usize >= frame.counts.len() {
        return Ok(hit);
    }
    for value in 0..frame.counts[var as usize] {
        let hits = hits_value(factors, choices, frame, line, fanin, var, value)?;
        hit = with_value(hit, value, hits);
    }
    Ok(hit)
}
