ghost use Rattle.std.specs.Prelude.{◌≡◌, ◌<◌, ◌≤◌, ◌+◌, ◌^◌, All, IfOk, length};
ghost use Rattle.std.specs.List.{IsDistinct};
ghost use Rattle.mv_cover.specs.Cubes.{IsCube};
ghost use Rattle.mv_cover.specs.Equal.{cube_eq};
ghost use Rattle.mv_divide.specs.Division.{IsQuotient};
ghost use Rattle.mv_saving.specs.Saving as spec;
ghost use Rattle.mv_saving.specs.Saving.{IsSaving, joined};

use mv_base::Memory;
use mv_cover::Cube;
use mv_divide::Dividend;

/// What the division of the cover saves: its literals now less those after it. The divisor's own literals, which stand once
/// for all covers, aren't counted.
pub fn saving(cover: &Dividend, divisor: &[Cube]) -> Result<u128, Memory>
    requires cover { IsDistinct cube_eq cover.now }
    requires divisor { IsDistinct cube_eq divisor.now }
    requires some { 0 < spec.literals divisor.now }
    ensures { IfOk result (λ saved. IsSaving cover.now divisor.now saved) }
{
    let quotient = cover.quotient(divisor)?;
    Ok(saved(cover.cubes(), divisor, quotient.as_slice()))
}

/// The literals now less those after the division.
fn saved(cover: &[Cube], divisor: &[Cube], quotient: &[Cube]) -> u128
    requires cover { IsDistinct cube_eq cover.now }
    requires divisor { IsDistinct cube_eq divisor.now }
    requires some { 0 < spec.literals divisor.now }
    requires quotient { IsQuotient cover.now divisor.now quotient.now }
    ensures saved { result + (spec.literals quotient.now + length quotient.now)
        ≡ joined divisor.now quotient.now }
    ensures terms { All IsCube divisor.now }
{
    let now = literals(cover);
    let own = literals(divisor);
    let left = literals(quotient);
    let cubes = quotient.len() as u128;
    let joined = left * divisor.len() as u128 + cubes * own;
    let after = now - joined + (left + cubes);
    now - after
}

/// The literals of the cubes, each of which counts one. It takes no memory.
pub fn literals(cubes: &[Cube]) -> u128
    ensures value { result ≡ spec.literals cubes.now }
    ensures few { result ≤ 2 ^ 96 }
    ensures formed { All IsCube cubes.now }
{
    let mut total: u128 = 0;
    for cube in cubes {
        total += size(cube);
    }
    total
}

/// The literals of the cube.
fn size(cube: &Cube) -> u128
    ensures value { result ≡ length cube.now }
    ensures short { result ≤ 2 ^ 32 }
    ensures formed { IsCube cube.now }
{
    let _ = cube.lits();
    cube.len() as u128
}
