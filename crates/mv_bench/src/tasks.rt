use crate::draw::{Shape, VALUES, drawn_lines};
use crate::pairs::{NETS, pair_lines};
use crate::symbols::drawn_cubes;
use mv_base::Memory;
use mv_cover::{Cover, CoverStop};
use mv_kernels::KernelStop;
use rand_pcg::Pcg32;
use std::alloc::Global;

/// How many nets the cubes of `covers` are over.
const COVER_NETS: usize = 20;

/// Whether so many drawn lines over 20 nets match every point.
#[tactic(auto, using(crate::proofs::Drawn::drawn_within))]
pub fn covers(alloc: Global, size: u32, seed: u64) -> Result<bool, Memory> {
    let mut random = Pcg32::new(seed, 0);
    let shape = Shape {
        nets: COVER_NETS as u32,
        odds: 3,
    };
    let lines = drawn_lines(alloc, &mut random, shape, size)?;
    let cover = Cover {
        lines,
        default: None,
    };
    cover.covers_all(alloc, &[VALUES; COVER_NETS])
}

/// How many of so many drawn lines over 8 nets are left once they are absorbed.
pub fn absorb(alloc: Global, size: u32, seed: u64) -> Result<usize, Memory> {
    let mut random = Pcg32::new(seed, 0);
    let shape = Shape { nets: 8, odds: 6 };
    let lines = drawn_lines(alloc, &mut random, shape, size)?;
    let mut cover = Cover {
        lines,
        default: None,
    };
    cover.absorb()?;
    Ok(cover.lines.len())
}

/// How many cubes the complement of a line for each of twelve pairs of nets has, with so many of these lines drawn behind
/// them: the list is at its longest from the twelfth line on.
pub fn complement(alloc: Global, size: u32, seed: u64) -> Result<usize, CoverStop> {
    let mut random = Pcg32::new(seed, 0);
    let lines = pair_lines(alloc, &mut random, size)?;
    let cover = Cover {
        lines,
        default: None,
    };
    let counts = [2; NETS];
    if !cover.suits(&counts) {
        return Ok(0);
    }
    Ok(cover.complement(alloc, &counts)?.len())
}

/// How many kernels so many drawn cubes over 30 symbols have.
pub fn kernels(alloc: Global, size: u32, seed: u64) -> Result<usize, KernelStop> {
    let mut random = Pcg32::new(seed, 0);
    let cubes = drawn_cubes(alloc, &mut random, size)?;
    Ok(mv_kernels::kernels(alloc, cubes.as_slice())?.len())
}
