ghost use Rattle.std.specs.Prelude.{◌≡◌, ◌<◌, ◌≤◌, ◌+◌, ◌^◌, ◌∷◌, true, List, [], All, IfOk, length};
ghost use Rattle.mv_cover.specs.Cubes.{IsCube};
ghost use Rattle.mv_cover.specs.Literal.{Lit as a_lit};
ghost use Rattle.mv_kernels.specs.Symbols.{has_symbol};
ghost use Rattle.mv_meets.specs.Meets as spec;
ghost use Rattle.mv_meets.specs.Search.{AreNumbers, IsNode};

use mv_base::Memory;
use mv_cover::{Cube, Lit};
use smallvec::SmallVec;
use std::alloc::Global;

/// Some symbols, the ascending places of the cubes that have them, and the net from which on others may come to them.
#[derive(Drop)]
pub struct Node {
    pub cube: Cube,
    pub places: Vec<usize>,
    pub low: u64,
}

/// No symbols, which all cubes have.
pub fn root(alloc: Global, cubes: &[Cube]) -> Result<Node, Memory>
    ensures node { IfOk result (λ node. IsNode cubes.now node) }
    ensures none { IfOk result (λ node. node.cube ≡ []) }
    ensures low { IfOk result (λ node. node.low ≡ 0) }
{
    let cube = Cube::of(SmallVec::new(alloc));
    let places = numbers(alloc, cubes.len())?;
    Ok(Node {
        cube,
        places,
        low: 0,
    })
}

/// The symbol, which all cubes have, and with which only some on later nets may be.
pub fn first(alloc: Global, cubes: &[Cube], symbol: &Lit) -> Result<Node, Memory>
    requires formed { All IsCube cubes.now }
    requires some { 0 < length cubes.now }
    requires have { All (λ (c : List a_lit). has_symbol c symbol.now ≡ true) cubes.now }
    ensures node { IfOk result (λ node. IsNode cubes.now node) }
    ensures cube { IfOk result (λ node. node.cube ≡ symbol.now ∷ []) }
    ensures low { IfOk result (λ node. node.low ≡ symbol.now.net.0 + 1) }
{
    let mut lits = SmallVec::new(alloc);
    lits.push(symbol.copy()?)?;
    let cube = Cube::of(lits);
    let places = numbers(alloc, cubes.len())?;
    let low = symbol.net().0 as u64 + 1;
    Ok(Node { cube, places, low })
}

/// The numbers below the count.
fn numbers(alloc: Global, count: usize) -> Result<Vec<usize>, Memory>
    ensures { IfOk result (λ list. AreNumbers count list.items) }
{
    let mut list = Vec::new(alloc);
    for number in 0..count {
        list.push(number)?;
    }
    Ok(list)
}

/// The literals of the longest of the cubes at these places.
pub fn longest(cubes: &[Cube], places: &[usize]) -> usize
    requires { All (λ p. p < length cubes.now) places.now }
    ensures longest { All (λ p. length (spec.at cubes.now p) ≤ result) places.now }
    ensures short { result ≤ 2 ^ 32 }
{
    let mut longest = 0;
    for place in places {
        longest = greater(longest, cubes[*place].len());
    }
    longest
}

/// The greater of the numbers of literals.
fn greater(a: usize, b: usize) -> usize
    requires a { a ≤ 2 ^ 32 }
    requires b { b ≤ 2 ^ 32 }
    ensures first { a ≤ result }
    ensures second { b ≤ result }
    ensures short { result ≤ 2 ^ 32 }
{
    if a < b { b } else { a }
}
