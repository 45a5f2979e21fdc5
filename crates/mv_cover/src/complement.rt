ghost use Rattle.std.specs.Prelude.{◌≡◌, ◌≤◌, ◌<◌, ℕ, not, length, IfOk, IfErr, All, AllPairs};
ghost use Rattle.mv_base.specs.declared.limits.TheConstants.{MAX_COMPLEMENT_CUBES};
ghost use Rattle.mv_cover.specs.Cubes.{IsCube};
ghost use Rattle.mv_cover.specs.Covers.{some_matches};
ghost use Rattle.mv_cover.specs.Covering.{IsPoint};
ghost use Rattle.mv_cover.specs.Cofactors.{cubes_match};
ghost use Rattle.mv_cover.specs.Sharp.{Suits, IsCubeOver, AreDisjoint};
ghost use Rattle.mv_cover.specs.Complement.{LinesSuit, IsWide, StaysWithin, sharps_of, complement_of};

use crate::sharp::put_sharp;
use crate::{Cover, CoverStop, Cube, Lit};
use mv_base::MAX_COMPLEMENT_CUBES;
use std::alloc::Global;

impl Cover {
    /// The points that no line matches, as cubes without common points.
    /// `counts` has the number of values of each net by its number.
    /// It is Wide where the list that the lines leave has more than `MAX_COMPLEMENT_CUBES` after some line.
    pub fn complement(&self, alloc: Global, counts: &[u16]) -> Result<Vec<Cube>, CoverStop>
        requires { LinesSuit counts.now self.now.lines }

        ensures list { IfOk result
            (λ cubes. cubes.items ≡ complement_of counts.now self.now.lines) }
        ensures narrow { IfOk result (λ _. StaysWithin counts.now self.now.lines) }
        ensures wide { IfErr result
            (λ stop. stop ≡ CoverStop.Wide → IsWide counts.now self.now.lines) }

        ensures points { IfOk result
            (λ cubes. (at : ℕ → ℕ) → IsPoint counts.now at
            → cubes_match at cubes.items ≡ not (some_matches at self.now.lines)) }
        ensures apart { IfOk result (λ cubes. AllPairs (AreDisjoint counts.now) cubes.items) }
        ensures suited { IfOk result (λ cubes. All (IsCubeOver counts.now) cubes.items) }
    {
        let mut cubes = Vec::new(alloc);
        cubes.push(Cube::new(alloc, &[])?)?;
        for line in self.lines.as_slice() {
            cubes = match sharps(alloc, cubes, line.cube.lits(), counts) {
                Ok(left) => left,
                Err(stop) => return Err(stop),
            };
        }
        Ok(cubes)
    }
}

/// The sharps of the cubes by the literals of another. It stops as soon as there are too many.
fn sharps(
    alloc: Global,
    cubes: Vec<Cube>,
    other: &[Lit],
    counts: &[u16],
) -> Result<Vec<Cube>, CoverStop>
    requires cube { IsCube other.now }
    requires suited { Suits counts.now other.now }
    ensures list { IfOk result (λ left. left.items ≡ sharps_of counts.now other.now cubes.items) }
    ensures narrow { IfOk result (λ left. length left.items ≤ MAX_COMPLEMENT_CUBES) }
    ensures wide { IfErr result
        (λ stop. stop ≡ CoverStop.Wide
        → MAX_COMPLEMENT_CUBES < length (sharps_of counts.now other.now cubes.items)) }
{
    let mut left = Vec::new(alloc);
    for cube in cubes {
        put_sharp(&mut left, cube, other, counts)?;
        if left.len() as u64 > MAX_COMPLEMENT_CUBES {
            return Err(CoverStop::Wide);
        }
    }
    Ok(left)
}
