ghost use Rattle.std.specs.Prelude.{◌≡◌, ◌++◌, IfOk, IfErr, OnOk, IsSome};
ghost use Rattle.mv_cover.specs.Complement.{LinesSuit, IsWide, StaysWithin, AllowSame, lines_for, spelled_of};

use crate::{Cover, CoverStop, Cube, Line};
use mv_base::{Items, Memory, PackedSet};
use std::alloc::Global;

impl Cover {
    /// The same relation without a default, for which a line stands for each cube of the complement.
    /// `counts` has the number of values of each net by its number.
    /// A cover without a default is answered as it is; else it is Wide as the complement is.
    pub fn spell_default(&self, alloc: Global, counts: &[u16]) -> Result<Cover, CoverStop>
        requires { LinesSuit counts.now self.now.lines }

        ensures cover { IfOk result (λ cover. cover ≡ spelled_of counts.now self.now) }
        ensures narrow { IfOk result
            (λ _. IsSome self.now.default → StaysWithin counts.now self.now.lines) }
        ensures wide { IfErr result
            (λ stop. stop ≡ CoverStop.Wide → IsWide counts.now self.now.lines) }
        ensures wide_default { IfErr result
            (λ stop. stop ≡ CoverStop.Wide → IsSome self.now.default) }

        ensures relation { IfOk result (λ cover. AllowSame counts.now cover self.now) }
        ensures suited { IfOk result (λ cover. LinesSuit counts.now cover.lines) }
    {
        let Some(out) = &self.default else {
            return Ok(self.copy()?);
        };
        let cubes = match self.complement(alloc, counts) {
            Ok(cubes) => cubes,
            Err(stop) => return Err(stop),
        };
        let mut spelled = self.copy()?;
        spelled.default = None;
        put_lines(&mut spelled.lines, cubes, out)?;
        Ok(spelled)
    }
}

/// Adds a line for each of the cubes, with the output, behind the others.
fn put_lines(lines: &mut Items<Line>, cubes: Vec<Cube>, out: &PackedSet) -> Result<(), Memory>
    ensures { OnOk result (lines.new ≡ lines.old ++ lines_for out.now cubes.items) }
{
    for cube in cubes {
        lines.push(Line {
            cube,
            out: out.copy()?,
        })?;
    }
    Ok(())
}
