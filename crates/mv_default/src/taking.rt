ghost use Rattle.std.specs.Prelude.{◌≡◌, ◌≤◌, ℕ, All, IfOk};
ghost use Rattle.mv_base.specs.Set.{one};
ghost use Rattle.mv_base.specs.declared.limits.TheConstants.{MAX_VALUES};
ghost use Rattle.mv_cover.specs.Lines.{IsOutput};
ghost use Rattle.mv_cover.specs.Plain.{GivesOne};
ghost use Rattle.mv_cover.specs.declared.line.Line.{Line};
ghost use Rattle.mv_default.specs.Taken.{IsDefaulted, lines_of_others};

use crate::costly::costliest_value;
use mv_base::{Items, Memory, PackedSet, Value};
use mv_cover::{Cover, Line};
use std::alloc::Global;

/// The table with the value as default whose lines have the most literals, the least such value, in place of those lines. None where
/// no line has a literal. Each line gives one of the `values` values, which are no more than a net may have. It looks at each line twice.
pub fn take_default(alloc: Global, table: &Cover, values: u16) -> Result<Option<Cover>, Memory>
    requires few { values ≤ MAX_VALUES }
    requires single { All GivesOne table.now.lines }
    requires within { All (λ (l : Line). IsOutput values l.out) table.now.lines }
    ensures { IfOk result (IsDefaulted table.now) }
{
    if table.literals() == 0 {
        return Ok(None);
    }
    let lines = table.lines.as_slice();
    let value = costliest_value(alloc, lines, values)?;
    let out = PackedSet::one(alloc, value)?;
    let lines = other_lines(alloc, lines, &out)?;
    Ok(Some(Cover {
        lines,
        default: Some(out),
    }))
}

/// The lines whose output is another.
fn other_lines(alloc: Global, lines: &[Line], out: &PackedSet) -> Result<Items<Line>, Memory>
    ensures { IfOk result
        (λ others. (v : ℕ) → out.now ≡ one v → others ≡ lines_of_others v lines.now) }
{
    let mut others = Items::new(alloc);
    for line in lines {
        if line.out != *out {
            others.push(line.copy()?)?;
        }
    }
    Ok(others)
}
