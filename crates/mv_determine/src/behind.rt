//! What of a cube lies outside other lines.
ghost use Rattle.std.specs.Prelude.{◌≡◌, ◌<◌, ◌≤◌, ◌++◌, ℕ, IfErr, IfOk, OnOk, length, take, All};
ghost use Rattle.mv_base.specs.declared.limits.TheConstants.{MAX_COMPLEMENT_CUBES};
ghost use Rattle.mv_cover.specs.Complement.{LinesSuit, lines_for, sharps_of};
ghost use Rattle.mv_cover.specs.Sharp.{IsCubeOver, Suits};
ghost use Rattle.mv_determine.specs.Determined.{cubes_outside};

use mv_base::{Items, MAX_COMPLEMENT_CUBES, Memory, PackedSet};
use mv_cover::{CoverStop, Cube, Line};
use std::alloc::Global;

/// Of the cube what lies outside all of the lines. It is Wide where there are more than `MAX_COMPLEMENT_CUBES` cubes behind some of
/// them. `counts` has the number of values of each net by its number.
pub fn cubes_outside(
    alloc: Global,
    lines: &[Line],
    cube: &Cube,
    counts: &[u16],
) -> Result<Vec<Cube>, CoverStop>
    requires own { Suits counts.now cube.now }
    requires others { LinesSuit counts.now lines.now }
    ensures list { IfOk result
        (λ cubes. cubes.items ≡ cubes_outside counts.now lines.now cube.now) }
    ensures narrow { IfOk result
        (λ _. (k : ℕ)
        → length (cubes_outside counts.now (take k lines.now) cube.now) ≤ MAX_COMPLEMENT_CUBES) }
    ensures wide { IfErr result (λ stop. stop ≡ CoverStop.Wide
        → (k : ℕ) ×
        (MAX_COMPLEMENT_CUBES < length (cubes_outside counts.now (take k lines.now) cube.now))) }
{
    let mut cubes = Vec::new(alloc);
    cubes.push(cube.copy()?)?;
    for line in lines {
        cubes = match sharps(alloc, cubes.as_slice(), &line.cube, counts) {
            Ok(left) => left,
            Err(stop) => return Err(stop),
        };
    }
    Ok(cubes)
}

/// The sharps of the cubes by another. It stops as soon as there are too many.
fn sharps(
    alloc: Global,
    cubes: &[Cube],
    other: &Cube,
    counts: &[u16],
) -> Result<Vec<Cube>, CoverStop>
    requires suited { All (IsCubeOver counts.now) cubes.now }
    requires other { Suits counts.now other.now }
    ensures list { IfOk result (λ left. left.items ≡ sharps_of counts.now other.now cubes.now) }
    ensures suited { IfOk result (λ left. All (IsCubeOver counts.now) left.items) }
    ensures narrow { IfOk result (λ left. length left.items ≤ MAX_COMPLEMENT_CUBES) }
    ensures wide { IfErr result
        (λ stop. stop ≡ CoverStop.Wide
        → MAX_COMPLEMENT_CUBES < length (sharps_of counts.now other.now cubes.now)) }
{
    let mut left = Vec::new(alloc);
    for cube in cubes {
        put_all(&mut left, cube.without(other, counts)?)?;
        if left.len() as u64 > MAX_COMPLEMENT_CUBES {
            return Err(CoverStop::Wide);
        }
    }
    Ok(left)
}

/// Puts the cubes behind the others.
fn put_all(list: &mut Vec<Cube>, cubes: Vec<Cube>) -> Result<(), Memory>
    ensures { OnOk result (list.new.items ≡ list.old.items ++ cubes.items) }
{
    for cube in cubes {
        list.push(cube)?;
    }
    Ok(())
}

/// Adds a line for each of the cubes, with the output, behind the others.
pub fn put_lines(lines: &mut Items<Line>, cubes: Vec<Cube>, out: &PackedSet) -> Result<(), Memory>
    ensures { OnOk result (lines.new ≡ lines.old ++ lines_for out.now cubes.items) }
{
    for cube in cubes {
        lines.push(Line {
            cube,
            out: out.copy()?,
        })?;
    }
    Ok(())
}
