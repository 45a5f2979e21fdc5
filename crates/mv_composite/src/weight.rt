ghost use Rattle.std.specs.Prelude.{◌≡◌, ◌+◌, ◌*◌, ◌≤◌, ◌^◌, length, count_ones};
ghost use Rattle.mv_cover.specs.Cubes.{IsCube};
ghost use Rattle.mv_composite.specs.Weights as spec;
ghost use Rattle.mv_composite.specs.Weights.{IsCounted, AreCounted};

use mv_base::{MAX_VALUES, ValueSet};
use mv_cover::{Cube, Line};

/// What the line weighs: the more its literals and its output leave out, the more. It takes no memory.
pub fn weight_of(line: &Line) -> u64
    ensures value { result ≡ spec.weight_of line.now }
    ensures counted { IsCounted line.now }
    ensures formed { IsCube line.now.cube }
{
    cube_weight(&line.cube) + u64::from(set_weight(line.out.get()))
}

/// What the literals weigh together.
fn cube_weight(cube: &Cube) -> u64
    ensures value { result ≡ spec.cube_weight cube.now }
    ensures counted { AreCounted cube.now }
    ensures formed { IsCube cube.now }
    ensures low { result ≤ (MAX_VALUES + 1) * 2 ^ 32 }
{
    let _short = cube.len();
    let mut weight = 0;
    for l in cube.lits() {
        weight += u64::from(set_weight(l.set()));
    }
    weight
}

/// One more than the values that the set leaves out, of as many as a net may have.
fn set_weight(set: ValueSet) -> u16
    ensures value { result ≡ spec.set_weight set }
    ensures counted { count_ones set ≤ MAX_VALUES }
    ensures low { result ≤ MAX_VALUES + 1 }
{
    MAX_VALUES + 1 - set.count()
}
