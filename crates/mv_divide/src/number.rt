ghost use Rattle.std.specs.Prelude.{◌≡◌, ◌≤◌, ◌^◌};
ghost use Rattle.mv_cover.specs.Cubes.{IsCube};
ghost use Rattle.mv_divide.specs.Numbers as spec;

use mv_cover::{Cube, Lit};
use std::hash::{FoldHasher, Hash, Hasher};

/// The number of a literal.
#[tactic(auto, unfolding(crate::specs::Numbers::lit_number))]
fn lit_number(literal: &Lit) -> u64
    ensures { result ≡ spec.lit_number literal.now }
{
    let mut hasher = FoldHasher::default();
    literal.hash(&mut hasher);
    hasher.finish()
}

/// The number of a cube.
pub fn cube_number(cube: &Cube) -> u128
    ensures number { result ≡ spec.cube_number cube.now }
    ensures small { result ≤ 2 ^ 96 }
    ensures formed { IsCube cube.now }
{
    let _ = cube.len();
    let mut sum: u128 = 0;
    for literal in cube.lits() {
        sum += lit_number(literal) as u128;
    }
    sum
}
