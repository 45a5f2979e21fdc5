ghost use Rattle.std.specs.Prelude.{◌≡◌, ◌∷◌, [], true, None, List, All, IfOk};
ghost use Rattle.mv_cover.specs.Cubes.{IsCube};
ghost use Rattle.mv_cover.specs.Literal.{Lit as a_lit};
ghost use Rattle.mv_kernels.specs.Symbols.{has_symbol};
ghost use Rattle.mv_meets.specs.Meets.{IsAnswer};
ghost use Rattle.mv_meets.specs.Search.{IsFound, IsNode, IsOpen, IsSearch, IsSoughtIn, IsVisited, Saves};

use crate::children::spread;
use crate::found::{Found, can_win, leading, look};
use crate::nodes::{Node, first, longest, root};
use mv_base::Memory;
use mv_cover::{Cube, Lit};
use std::alloc::Global;

/// The best common part that was found so far, and the nodes still to be visited.
#[derive(Drop)]
struct Search {
    found: Option<Found>,
    waiting: Vec<Node>,
}

/// Which of the common parts of two cubes is the best.
#[derive(Drop)]
pub enum Answer {
    /// This one.
    Best(Cube),
    /// None saves anything.
    NoneSaves,
    /// It would have taken more visits.
    Unknown,
}

/// What came of a search for a better part than the one that was given.
#[derive(Drop)]
pub enum Sought {
    /// The best of those that are better, or none.
    Ended(Option<Found>),
    /// It would have taken more visits.
    Broken,
}

/// Of the parts that two of the cubes have in common, at least two symbols, the one that saves the most, the least of them where
/// several save as much. It is searched for among all sets of symbols that may save as much as the best so far, by as many visits
/// of such sets as are allowed.
pub fn best_meet(alloc: Global, cubes: &[Cube], visits: u64) -> Result<Answer, Memory>
    requires { All IsCube cubes.now }
    ensures { IfOk result (IsAnswer cubes.now) }
{
    let node = root(alloc, cubes)?;
    let Search { found, waiting } = searched(alloc, cubes, node, &None, visits)?;
    if !waiting.is_empty() {
        return Ok(Answer::Unknown);
    }
    match found {
        Some(found) => Ok(Answer::Best(found.cube)),
        None => Ok(Answer::NoneSaves),
    }
}

/// Of the parts that begin with the symbol, which all of the cubes have, the best one that is better than the given one. It is
/// searched for by as many visits of sets of symbols as are allowed.
pub fn better_meet(
    alloc: Global,
    cubes: &[Cube],
    symbol: &Lit,
    given: &Option<Found>,
    visits: u64,
) -> Result<Sought, Memory>
    requires formed { All IsCube cubes.now }
    requires have { All (λ (c : List a_lit). has_symbol c symbol.now ≡ true) cubes.now }
    requires given { Saves given.now }
    ensures { IfOk result (IsSoughtIn cubes.now symbol.now given.now) }
{
    if cubes.is_empty() {
        return Ok(Sought::Ended(None));
    }
    let node = first(alloc, cubes, symbol)?;
    let Search { found, waiting } = searched(alloc, cubes, node, given, visits)?;
    if !waiting.is_empty() {
        return Ok(Sought::Broken);
    }
    Ok(Sought::Ended(found))
}

/// The search from the node on, behind so many visits, or when no node waits any more.
fn searched(
    alloc: Global,
    cubes: &[Cube],
    start: Node,
    given: &Option<Found>,
    visits: u64,
) -> Result<Search, Memory>
    requires formed { All IsCube cubes.now }
    requires node { IsNode cubes.now start }
    requires given { Saves given.now }
    ensures { IfOk result (IsSearch cubes.now start given.now) }
{
    let mut search = begun(alloc, start)?;
    for visited in 0..visits {
        let Some(node) = search.waiting.pop() else {
            return Ok(search);
        };
        search = visit(alloc, cubes, &node, given, search)?;
    }
    Ok(search)
}

/// The search before the first visit, of the node.
fn begun(alloc: Global, start: Node) -> Result<Search, Memory>
    ensures found { IfOk result (λ search. search.found ≡ None) }
    ensures waiting { IfOk result (λ search. search.waiting.items ≡ start ∷ []) }
{
    let mut waiting = Vec::new(alloc);
    waiting.push(start)?;
    Ok(Search {
        found: None,
        waiting,
    })
}

/// Visits the node: looks at its symbols, and lets those with one more wait, unless none can be better than the best so far.
fn visit(
    alloc: Global,
    cubes: &[Cube],
    node: &Node,
    given: &Option<Found>,
    search: Search,
) -> Result<Search, Memory>
    requires formed { All IsCube cubes.now }
    requires node { IsNode cubes.now node.now }
    requires given { Saves given.now }
    requires waiting { All (IsNode cubes.now) search.waiting.items }
    requires found { IsFound cubes.now search.found }
    ensures { IfOk result (IsVisited cubes.now node.now given.now search) }
{
    let places = node.places.as_slice();
    let longest = longest(cubes, places);
    let best = leading(given, &search.found);
    if !can_win(best, places.len(), longest) {
        return Ok(search);
    }
    let found = look(alloc, cubes, node, given, search.found)?;
    let best = leading(given, &found);
    let waiting = spread(alloc, cubes, node, best, longest, search.waiting)?;
    Ok(Search { found, waiting })
}
