ghost use Rattle.std.specs.Prelude.{◌≡◌, ◌+◌, ◌≤◌, ◌^◌, ◌++◌, ◌∷◌, [], All, IfOk};
ghost use Rattle.mv_cover.specs.Cubes.{IsCube};
ghost use Rattle.mv_meets.specs.Search.{IsNode, Saves, Spreads};

use crate::found::{Found, can_win};
use crate::groups::{grouped, places_of};
use crate::nodes::Node;
use mv_base::Memory;
use mv_cover::{Cube, Lit};
use smallvec::SmallVec;
use std::alloc::Global;

/// Puts the nodes with one symbol more, on a net from the node's on, to those that wait, where a part of at most so many literals
/// of the cubes that have it may be as good as the best so far.
pub fn spread(
    alloc: Global,
    cubes: &[Cube],
    node: &Node,
    best: &Option<Found>,
    longest: usize,
    waiting: Vec<Node>,
) -> Result<Vec<Node>, Memory>
    requires formed { All IsCube cubes.now }
    requires node { IsNode cubes.now node.now }
    requires best { Saves best.now }
    requires short { longest ≤ 2 ^ 32 }
    requires waiting { All (IsNode cubes.now) waiting.items }
    ensures { IfOk result
        (λ more. Spreads cubes.now node.now best.now longest
        (λ l. Unit {0}) waiting.items more.items) }
{
    let groups = grouped(alloc, cubes, node.places.as_slice(), node.low)?;
    let mut waiting = waiting;
    for literal in groups.places.keys() {
        let places = places_of(&groups, literal);
        if can_win(best, places.len(), longest) {
            waiting.push(with_symbol(alloc, node, literal, places)?)?;
        }
    }
    Ok(waiting)
}

/// The node with one symbol more, which of its cubes those at these places have.
fn with_symbol(alloc: Global, node: &Node, literal: &Lit, places: &[usize]) -> Result<Node, Memory>
    requires { IsCube (node.now.cube ++ literal.now ∷ []) }
    ensures cube { IfOk result (λ child. child.cube ≡ node.now.cube ++ literal.now ∷ []) }
    ensures places { IfOk result (λ child. child.places.items ≡ places.now) }
    ensures low { IfOk result (λ child. child.low ≡ literal.now.net.0 + 1) }
{
    let cube = with_literal(alloc, &node.cube, literal)?;
    let places = Vec::from_slice(alloc, places)?;
    let low = literal.net().0 as u64 + 1;
    Ok(Node { cube, places, low })
}

/// The cube with one literal more at its end.
fn with_literal(alloc: Global, cube: &Cube, literal: &Lit) -> Result<Cube, Memory>
    requires { IsCube (cube.now ++ literal.now ∷ []) }
    ensures { IfOk result (λ more. more ≡ cube.now ++ literal.now ∷ []) }
{
    let mut lits = SmallVec::new(alloc);
    for kept in cube.lits() {
        lits.push(kept.copy()?)?;
    }
    lits.push(literal.copy()?)?;
    Ok(Cube::of(lits))
}
