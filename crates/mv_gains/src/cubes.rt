ghost use Rattle.std.specs.Prelude.{◌≡◌, ◌<◌, ◌++◌, ◌∷◌, [], List, All, Contains, IfOk, OnOk, length, map, take};
ghost use Rattle.mv_cover.specs.Literal.{Lit as a_lit};
ghost use Rattle.mv_cover.specs.Cubes.{IsCube};
ghost use Rattle.mv_cover.specs.declared.line.Line.{Line as a_line};
ghost use Rattle.mv_kernels.specs.Symbols as symbols;
ghost use Rattle.mv_gains.specs.Candidates as candidates;
ghost use Rattle.mv_gains.specs.Cubes.{AreCommon, AreCubeCandidates, IsSharedAt, IsSharedBy, IsTwo};
ghost use Rattle.mv_gains.specs.Gains.{lines_at};
ghost use Rattle.mv_gains.specs.Grown.{Grew, IsOneOf};
ghost use Rattle.mv_gains.specs.Holders.{places_in};

use crate::holders::{Holders, no_holders, note_all, places_of};
use crate::tables::lines_of;
use indexmap::IndexSet;
use mv_base::{Items, Memory};
use mv_cover::{Cube, Line, Lit};
use mv_net::{FlatNet, Network};
use smallvec::SmallVec;
use std::alloc::{AllocError, Global};

/// The symbols that two lines at different places have in common, where they are at least two, each set of them once.
pub fn cube_candidates(alloc: Global, net: &Network) -> Result<Vec<Items<Cube>>, Memory>
    ensures { IfOk result (λ found. AreCubeCandidates net.now.nets found.items) }
{
    let cubes = all_cubes(alloc, net.parts().nets.as_slice())?;
    let found = common_cubes(alloc, cubes.as_slice())?;
    divisors_of(alloc, listed(alloc, found)?)
}

/// What two of the cubes at different places have in common, where it is at least two symbols. Each cube is held against the
/// earlier ones that have one of its symbols.
fn common_cubes(alloc: Global, cubes: &[Cube]) -> Result<IndexSet<Cube>, Memory>
    ensures { IfOk result (λ found. AreCommon cubes.now (length cubes.now) found.keys) }
{
    let mut found = IndexSet::new(alloc);
    let mut holders = no_holders(alloc);
    for (number, cube) in cubes.iter().enumerate() {
        add_cube(alloc, &mut found, cubes, &holders, cube)?;
        note_all(alloc, &mut holders, number, cube.lits())?;
    }
    Ok(found)
}

/// Puts what the cube has in common with those that have one of its symbols to those found.
fn add_cube(
    alloc: Global,
    found: &mut IndexSet<Cube>,
    cubes: &[Cube],
    holders: &Holders,
    cube: &Cube,
) -> Result<(), Memory>
    requires { (l : a_lit) → All (λ p. p < length cubes.now) (places_in holders.now l) }
    ensures { OnOk result
        (Grew (IsSharedBy cubes.now
        (places_in holders.now) cube.now) found.old.keys found.new.keys) }
{
    for literal in cube.lits() {
        let places = places_of(holders, literal);
        add_with(alloc, found, cubes, places, cube)?;
    }
    Ok(())
}

/// Puts what the cube has in common with those at these places to those found.
fn add_with(
    alloc: Global,
    found: &mut IndexSet<Cube>,
    cubes: &[Cube],
    places: &[usize],
    cube: &Cube,
) -> Result<(), Memory>
    requires { All (λ p. p < length cubes.now) places.now }
    ensures { OnOk result
        (Grew (IsOneOf (IsSharedAt cubes.now cube.now) places.now) found.old.keys found.new.keys) }
{
    for place in places {
        put(found, common(alloc, cube, &cubes[*place])?)?;
    }
    Ok(())
}

/// Puts the cube to those found, if it has at least two symbols.
fn put(found: &mut IndexSet<Cube>, cube: Cube) -> Result<(), Memory>
    ensures { OnOk result (Grew (IsTwo cube) found.old.keys found.new.keys) }
{
    if cube.len() < 2 {
        return Ok(());
    }
    found.insert(cube)?;
    Ok(())
}

/// The symbols of a that b has too.
fn common(alloc: Global, a: &Cube, b: &Cube) -> Result<Cube, Memory>
    ensures { IfOk result (λ cube. cube ≡ candidates.common a.now b.now) }
{
    let mut shared = SmallVec::new(alloc);
    for literal in a.lits() {
        if has_symbol(b.lits(), literal) {
            shared.push(literal.copy()?)?;
        }
    }
    Ok(Cube::of(shared))
}

/// The cubes of all lines.
pub fn all_cubes(alloc: Global, nets: &[Option<FlatNet>]) -> Result<Vec<Cube>, Memory>
    ensures { IfOk result
        (λ cubes. cubes.items ≡ map (λ (l : a_line). l.cube) (candidates.all_lines nets.now)) }
{
    let mut cubes = Vec::new(alloc);
    for net in nets {
        add_lines(&mut cubes, lines_of(net))?;
    }
    Ok(cubes)
}

/// Adds the cubes of the lines.
pub fn add_lines(cubes: &mut Vec<Cube>, lines: &[Line]) -> Result<(), Memory>
    ensures { OnOk result
        (cubes.new.items ≡ cubes.old.items ++ map (λ (l : a_line). l.cube) lines.now) }
{
    for line in lines {
        cubes.push(line.cube.copy()?)?;
    }
    Ok(())
}

/// Each cube as a divisor of its own.
fn divisors_of(alloc: Global, cubes: Vec<Cube>) -> Result<Vec<Items<Cube>>, Memory>
    ensures { IfOk result (λ list. list.items ≡ map (λ (c : List a_lit). c ∷ []) cubes.items) }
{
    let mut list = Vec::new(alloc);
    for cube in cubes {
        let mut divisor = Items::new(alloc);
        divisor.push(cube)?;
        list.push(divisor)?;
    }
    Ok(list)
}

/// The cubes found, in order.
fn listed(alloc: Global, found: IndexSet<Cube>) -> Result<Vec<Cube>, AllocError>
    ensures { IfOk result (λ list. list.items ≡ found.keys) }
{
    found.into_iter().collect(alloc)
}

/// Whether the literals have the symbol.
pub fn has_symbol(literals: &[Lit], symbol: &Lit) -> bool
    ensures { result ≡ symbols.has_symbol literals.now symbol.now }
{
    literals.contains(symbol)
}
