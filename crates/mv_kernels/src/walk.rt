ghost use Rattle.std.specs.Prelude.{◌≡◌, ◌≤◌, List, All, Contains, length, IfOk, IfErr, OnOk};
ghost use Rattle.mv_cover.specs.Literal.{Lit};
ghost use Rattle.mv_cover.specs.Cubes.{IsCube};
ghost use Rattle.mv_kernels.specs.Kernels.{IsKernelOf, AreKernels, HasFew, HasMany};
ghost use Rattle.mv_kernels.specs.Below.{AreBelow, AreBelowBy, Walked};
ghost use Rattle.mv_kernels.specs.Equal.{kernel_eq};
ghost use Rattle.indexmap.specs.IndexSet.{insert_all, IsUnique};

use crate::quotient::kernel_by;
use crate::symbols::symbols;
use crate::{Kernel, KernelStop};
use indexmap::IndexSet;
use mv_base::{MAX_KERNELS, Memory};
use mv_cover::{Cube, Lit};
use std::alloc::{AllocError, AllocFailed, Global};

/// All kernels of the cover, each once, or TooMany where there are more than `MAX_KERNELS`. Equal cubes count as one.
///
/// The kernels are those of Brayton and McMullen, "The decomposition and factorization of Boolean expressions" (1982). The
/// walk goes down co-kernels: from each kernel by one of its symbols to the kernel below. Their recursive walk passes over
/// the symbols that it went through above. This one keeps the kernels by their hashes and goes down from each once, however
/// many co-kernels lead to it: it takes as many quotients as the kernels have symbols, and holds no kernel against all
/// others.
pub fn kernels(alloc: Global, cubes: &[Cube]) -> Result<Vec<Kernel>, KernelStop>
    ensures are { IfOk result (λ found. AreKernels cubes.now found.items) }
    ensures all { IfOk result
        (λ found. (k : Kernel) → IsKernelOf cubes.now k.cubes → Contains found.items k) }
    ensures few { IfOk result (λ _. HasFew cubes.now) }
    ensures many { IfErr result (λ stop. stop ≡ KernelStop.TooMany → HasMany cubes.now) }
{
    let mut found = first(alloc, cubes)?;
    let mut next = 0;
    while let Some(kernel) = found.get_index(next) {
        let below = below(alloc, kernel.cubes.as_slice())?;
        put_all(&mut found, below)?;
        if found.len() as u64 > MAX_KERNELS {
            return Err(KernelStop::TooMany);
        }
        next += 1;
    }
    Ok(listed(alloc, found)?)
}

/// The kernel of the cover itself, unless all of its cubes are equal.
fn first(alloc: Global, cubes: &[Cube]) -> Result<IndexSet<Kernel>, Memory>
    ensures walked { IfOk result (λ found. Walked cubes.now found.keys 0) }
    ensures few { IfOk result (λ found. length found.keys ≤ 1) }
    ensures formed { OnOk result (All IsCube cubes.now) }
{
    let mut found = IndexSet::new(alloc);
    if let Some(kernel) = kernel_by(alloc, cubes, &[])? {
        found.insert(kernel)?;
    }
    Ok(found)
}

/// The kernels to which single symbols lead down from the cubes.
fn below(alloc: Global, cubes: &[Cube]) -> Result<Vec<Kernel>, Memory>
    ensures { IfOk result (λ below. AreBelow cubes.now below.items) }
{
    let symbols = symbols(alloc, cubes)?;
    below_by(alloc, cubes, symbols.as_slice())
}

/// The kernels to which each of these symbols leads down from the cubes.
fn below_by(alloc: Global, cubes: &[Cube], symbols: &[Lit]) -> Result<Vec<Kernel>, Memory>
    ensures { IfOk result (λ below. AreBelowBy cubes.now symbols.now below.items) }
{
    let mut below = Vec::new(alloc);
    for symbol in symbols {
        if let Some(kernel) = kernel_by(alloc, cubes, &[symbol.copy()?])? {
            below.push(kernel)?;
        }
    }
    Ok(below)
}

/// Puts the kernels to those found.
fn put_all(found: &mut IndexSet<Kernel>, kernels: Vec<Kernel>) -> Result<(), AllocFailed<Kernel>>
    ensures { OnOk result (found.new.keys ≡ insert_all kernel_eq found.old.keys kernels.items) }
{
    for kernel in kernels {
        found.insert(kernel)?;
    }
    Ok(())
}

/// The kernels found, in order.
fn listed(alloc: Global, found: IndexSet<Kernel>) -> Result<Vec<Kernel>, AllocError>
    ensures same { IfOk result (λ list. list.items ≡ found.keys) }
    ensures distinct { IsUnique kernel_eq found }
{
    found.into_iter().collect(alloc)
}
