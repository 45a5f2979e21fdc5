ghost use Rattle.std.specs.Prelude.{◌≡◌, IfOk, IfSome, IfNone, OnOk, All};
ghost use Rattle.mv_cover.specs.Cubes.{IsCube};
ghost use Rattle.mv_kernels.specs.Symbols as spec;
ghost use Rattle.mv_kernels.specs.Below.{IsBelow, HasOneCube};

use crate::Kernel;
use crate::order::in_order;
use crate::symbols::{common, cube_quotient, has_each};
use mv_base::{Items, Memory};
use mv_cover::{Cube, Lit};
use std::alloc::Global;

/// The kernel that the quotient by these symbols becomes without the symbols that all of its cubes have, or None where it
/// has fewer than two cubes.
pub fn kernel_by(alloc: Global, cubes: &[Cube], symbols: &[Lit]) -> Result<Option<Kernel>, Memory>
    ensures some { IfOk result
        (λ found. IfSome found (λ kernel. IsBelow cubes.now symbols.now kernel.cubes)) }
    ensures none { IfOk result
        (λ found. IfNone found (HasOneCube (spec.quotient cubes.now symbols.now))) }
    ensures formed { OnOk result (All IsCube cubes.now) }
{
    let part = quotient(alloc, cubes, symbols)?;
    if part.len() < 2 {
        return Ok(None);
    }
    let common = common(alloc, part.as_slice())?;
    let free = in_order(quotient(alloc, part.as_slice(), common.as_slice())?);
    if free.len() < 2 {
        return Ok(None);
    }
    Ok(Some(Kernel {
        cubes: Items::of(free),
    }))
}

/// The quotient of the cubes by these symbols.
fn quotient(alloc: Global, cubes: &[Cube], symbols: &[Lit]) -> Result<Vec<Cube>, Memory>
    ensures part { IfOk result (λ part. part.items ≡ spec.quotient cubes.now symbols.now) }
    ensures formed { OnOk result (All IsCube cubes.now) }
{
    let mut part = Vec::new(alloc);
    for cube in cubes {
        if has_each(symbols, cube.lits()) {
            part.push(cube_quotient(alloc, symbols, cube)?)?;
        }
    }
    Ok(part)
}
