ghost use Rattle.std.specs.Prelude.{◌≡◌, OnOk, IfOk, All, Contains, filter};
ghost use Rattle.indexmap.specs.IndexSet.{insert_all};
ghost use Rattle.mv_cover.specs.Equal.{lit_eq};
ghost use Rattle.mv_kernels.specs.Symbols as spec;
ghost use Rattle.mv_kernels.specs.Below.{common_of};

use indexmap::IndexSet;
use mv_base::Memory;
use mv_cover::{Cube, Lit};
use smallvec::SmallVec;
use std::alloc::Global;

/// Whether the literals have the symbol.
fn has_symbol(lits: &[Lit], symbol: &Lit) -> bool
    ensures { result ≡ spec.has_symbol lits.now symbol.now }
{
    lits.contains(symbol)
}

/// Whether the literals have each of these symbols.
pub fn has_each(symbols: &[Lit], lits: &[Lit]) -> bool
    ensures { result ≡ spec.has_each symbols.now lits.now }
{
    symbols.iter().all(|l| lits.contains(l))
}

/// The cube without these symbols.
pub fn cube_quotient(alloc: Global, symbols: &[Lit], cube: &Cube) -> Result<Cube, Memory>
    ensures { IfOk result (λ left. left ≡ spec.cube_quotient symbols.now cube.now) }
{
    Ok(Cube::of(others(alloc, symbols, cube.lits())?))
}

/// The literals that are none of these symbols.
fn others(alloc: Global, symbols: &[Lit], lits: &[Lit]) -> Result<SmallVec<Lit, 2>, Memory>
    ensures { IfOk result (λ others. others.items ≡ spec.cube_quotient symbols.now lits.now) }
{
    let mut others = SmallVec::new(alloc);
    for l in lits {
        if !has_symbol(symbols, l) {
            others.push(l.copy()?)?;
        }
    }
    Ok(others)
}

/// The symbols that each of the cubes has.
pub fn common(alloc: Global, cubes: &[Cube]) -> Result<Vec<Lit>, Memory>
    ensures { IfOk result (λ common. common.items ≡ common_of cubes.now) }
{
    match cubes.split_first() {
        None => Ok(Vec::new(alloc)),
        Some((first, rest)) => shared(alloc, first.lits(), rest),
    }
}

/// The literals that each of the cubes has too.
fn shared(alloc: Global, first: &[Lit], rest: &[Cube]) -> Result<Vec<Lit>, Memory>
    ensures { IfOk result (λ shared. shared.items ≡ filter (spec.all_have rest.now) first.now) }
{
    let mut shared = Vec::new(alloc);
    for l in first {
        if all_have(rest, l) {
            shared.push(l.copy()?)?;
        }
    }
    Ok(shared)
}

/// Whether each of the cubes has the symbol.
fn all_have(cubes: &[Cube], symbol: &Lit) -> bool
    ensures { result ≡ spec.all_have cubes.now symbol.now }
{
    cubes.iter().all(|cube| cube.lits().contains(symbol))
}

/// The symbols of the cubes.
pub fn symbols(alloc: Global, cubes: &[Cube]) -> Result<IndexSet<Lit>, Memory>
    ensures { IfOk result (λ found. All (λ q. All (Contains found.keys) q) cubes.now) }
{
    let mut found = IndexSet::new(alloc);
    for cube in cubes {
        add(&mut found, cube.lits())?;
    }
    Ok(found)
}

/// Puts the literals to the symbols found.
fn add(found: &mut IndexSet<Lit>, lits: &[Lit]) -> Result<(), Memory>
    ensures { OnOk result (found.new.keys ≡ insert_all lit_eq found.old.keys lits.now) }
{
    for l in lits {
        found.insert(l.copy()?)?;
    }
    Ok(())
}
