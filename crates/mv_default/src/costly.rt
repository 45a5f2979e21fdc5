//! The value whose lines have the most literals.
ghost use Rattle.std.specs.Prelude.{◌≡◌, ◌+◌, ◌<◌, ◌≤◌, ◌^◌, ℕ, All, IfOk, length, slice_index, slice_set};
ghost use Rattle.mv_base.specs.Set.{one};
ghost use Rattle.mv_base.specs.declared.limits.TheConstants.{MAX_VALUES};
ghost use Rattle.mv_cover.specs.Covers.{literal_count};
ghost use Rattle.mv_cover.specs.Lines.{IsOutput};
ghost use Rattle.mv_cover.specs.Plain.{GivesOne};
ghost use Rattle.mv_cover.specs.declared.line.Line.{Line};
ghost use Rattle.mv_default.specs.Taken.{IsCostliest, literals_of_value};
ghost use Rattle.mv_default.specs.Summing.{AreSums, IsGreatest};

use mv_base::{Memory, Value};
use mv_cover::Line;
use std::alloc::Global;

/// The value whose lines have the most literals: the least of them where there are several. There is a line, and each gives one of
/// the `values` values.
pub fn costliest_value(alloc: Global, lines: &[Line], values: u16) -> Result<Value, Memory>
    requires some { 0 < length lines.now }
    requires single { All GivesOne lines.now }
    requires within { All (λ (l : Line). IsOutput values l.out) lines.now }
    requires few { literal_count lines.now ≤ 2 ^ 96 }
    ensures value { IfOk result (λ v. IsCostliest lines.now v.0) }
    ensures within { IfOk result (λ v. v.0 < values) }
{
    let sums = literal_sums(alloc, lines, values)?;
    Ok(Value(first_greatest(sums.as_slice())))
}

/// For each value the literals of the lines that give it.
fn literal_sums(alloc: Global, lines: &[Line], values: u16) -> Result<Vec<u128>, Memory>
    requires single { All GivesOne lines.now }
    requires within { All (λ (l : Line). IsOutput values l.out) lines.now }
    requires few { literal_count lines.now ≤ 2 ^ 96 }
    ensures { IfOk result (λ sums. AreSums lines.now values sums.items) }
{
    let mut sums = vec![in alloc; 0; values as usize]?;
    for line in lines {
        let place = value_of(line).0 as usize;
        sums[place] += line.cube.len() as u128;
    }
    Ok(sums)
}

/// The value that the line gives.
fn value_of(line: &Line) -> Value
    requires { GivesOne line.now }
    ensures { line.now.out ≡ one result.0 }
{
    line.out.get().least().unwrap()
}

/// The place of the greatest of the numbers: the first where there are several.
fn first_greatest(sums: &[u128]) -> u16
    requires some { 0 < length sums.now }
    requires few { length sums.now < 2 ^ 16 }
    ensures { IsGreatest sums.now result }
{
    let mut best: u16 = 0;
    for place in 0..sums.len() {
        if sums[place] > sums[best as usize] {
            best = place as u16;
        }
    }
    best
}
