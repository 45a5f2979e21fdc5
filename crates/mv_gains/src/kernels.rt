ghost use Rattle.std.specs.Prelude.{◌≡◌, ◌++◌, All, IfOk, OnOk, IsTrue, ◌↔◌, MatchBool, map};
ghost use Rattle.mv_kernels.specs.Kernels.{HasFew, HasMany};
ghost use Rattle.mv_gains.specs.Candidates.{HasManyKernels};
ghost use Rattle.mv_gains.specs.Grown.{Grew, IsOneOf};
ghost use Rattle.mv_gains.specs.Kernels.{HasSome, IsKernelFrom, IsKernelOfPart, IsSymbolic, IsWithKernels, new_candidate};

use crate::tables::lines_of;
use indexmap::IndexSet;
use mv_base::{Memory, NetId};
use mv_cover::Cube;
use mv_divide::{Part, parts};
use mv_kernels::{Kernel, KernelStop, kernels};
use mv_net::Network;
use std::alloc::{AllocError, Global};

/// Whether the table of net n has a cover of more than `MAX_KERNELS` kernels.
pub fn has_many_kernels(alloc: Global, net: &Network, n: NetId) -> Result<bool, Memory>
    ensures { IfOk result (λ found. MatchBool found
        (HasManyKernels net.now.nets n.0)
        (HasManyKernels net.now.nets n.0 → ⊥)) }
{
    let Some(table) = net.parts().nets.get(n.0 as usize) else {
        return Ok(false);
    };
    let parts = parts(alloc, lines_of(table))?;
    for part in parts.as_slice() {
        if has_many(alloc, part.cover.cubes())? {
            return Ok(true);
        }
    }
    Ok(false)
}

/// Whether the cover has more than `MAX_KERNELS` kernels.
fn has_many(alloc: Global, cover: &[Cube]) -> Result<bool, Memory>
    ensures { IfOk result (λ found. MatchBool found (HasMany cover.now) (HasFew cover.now)) }
{
    match kernels(alloc, cover) {
        Ok(_) => Ok(false),
        Err(KernelStop::TooMany) => Ok(true),
        Err(KernelStop::Memory) => Err(Memory),
    }
}

/// A kernel of a cover of a table, and what taking it out saved when that was last worked out.
#[derive(Drop)]
pub struct Candidate {
    pub kernel: Kernel,
    pub table: NetId,
    /// A net of one of its literals: what it saves stays while the tables that read this net do.
    pub key: NetId,
    /// When what it saves was worked out, and 0 where it never was.
    pub seen: u64,
    pub saved: u128,
}

/// Adds the kernels of the covers of the table, each once, whose every cube has a symbol. A cover of more than `MAX_KERNELS`
/// gives none.
pub fn add_kernels(
    alloc: Global,
    list: &mut Vec<Candidate>,
    table: NetId,
    parts: &[Part],
) -> Result<(), Memory>
    ensures { OnOk result (IsWithKernels table parts.now list.old.items list.new.items) }
{
    let mut found = IndexSet::new(alloc);
    add_table(alloc, &mut found, parts)?;
    add_all(list, table, listed(alloc, found)?)
}

/// Adds the kernels as candidates of the table, of which nothing is known yet.
fn add_all(list: &mut Vec<Candidate>, table: NetId, kernels: Vec<Kernel>) -> Result<(), Memory>
    ensures { OnOk result
        (list.new.items ≡ list.old.items ++ map (new_candidate table) kernels.items) }
{
    for kernel in kernels {
        list.push(Candidate {
            kernel,
            table,
            key: table,
            seen: 0,
            saved: 0,
        })?;
    }
    Ok(())
}

/// Puts the kernels of the covers of a table to those found.
fn add_table(alloc: Global, found: &mut IndexSet<Kernel>, parts: &[Part]) -> Result<(), Memory>
    ensures { OnOk result (Grew (IsOneOf IsKernelOfPart parts.now) found.old.keys found.new.keys) }
{
    for part in parts {
        add_cover(alloc, found, part.cover.cubes())?;
    }
    Ok(())
}

/// Puts the kernels of the cover to those found, unless there are too many.
fn add_cover(alloc: Global, found: &mut IndexSet<Kernel>, cover: &[Cube]) -> Result<(), Memory>
    ensures { OnOk result (Grew (IsKernelFrom cover.now) found.old.keys found.new.keys) }
{
    match kernels(alloc, cover) {
        Ok(kernels) => put_all(found, kernels),
        Err(KernelStop::TooMany) => Ok(()),
        Err(KernelStop::Memory) => Err(Memory),
    }
}

/// Puts those of the kernels to those found of which each cube has a symbol.
fn put_all(found: &mut IndexSet<Kernel>, kernels: Vec<Kernel>) -> Result<(), Memory>
    ensures { OnOk result (Grew (IsOneOf IsSymbolic kernels.items) found.old.keys found.new.keys) }
{
    for kernel in kernels {
        put(found, kernel)?;
    }
    Ok(())
}

/// Puts the kernel to those found, if each of its cubes has a symbol.
fn put(found: &mut IndexSet<Kernel>, kernel: Kernel) -> Result<(), Memory>
    ensures { OnOk result (Grew (IsSymbolic kernel) found.old.keys found.new.keys) }
{
    if !have_symbols(kernel.cubes.as_slice()) {
        return Ok(());
    }
    found.insert(kernel)?;
    Ok(())
}

/// Whether each of the cubes has a symbol.
fn have_symbols(cubes: &[Cube]) -> bool
    ensures { IsTrue result ↔ All HasSome cubes.now }
{
    cubes.iter().all(|cube| cube.len() > 0)
}

/// The kernels found, in order.
fn listed(alloc: Global, found: IndexSet<Kernel>) -> Result<Vec<Kernel>, AllocError>
    ensures { IfOk result (λ list. list.items ≡ found.keys) }
{
    found.into_iter().collect(alloc)
}
