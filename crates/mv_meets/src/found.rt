ghost use Rattle.std.specs.Prelude.{◌≡◌, ◌-◌, ◌*◌, ◌^◌, ◌≤◌, IfOk};
ghost use Rattle.mv_meets.specs.Search as spec;
ghost use Rattle.mv_meets.specs.Search.{IsFound, IsNode, Looked, Saves};

use crate::meeting::is_meet;
use crate::nodes::Node;
use mv_base::Memory;
use mv_cover::Cube;
use mv_kernels::compare_cubes;
use std::alloc::Global;
use std::cmp::Ordering;

/// A common part of two cubes, and what it saves.
#[derive(Drop)]
pub struct Found {
    pub cube: Cube,
    pub saved: u128,
}

/// What taking a part of so many literals out of so many cubes saves, and 0 where that is nothing.
fn saved_by(cubes: usize, literals: usize) -> u128
    requires { literals ≤ 2 ^ 32 }
    ensures { result ≡ cubes * (literals - 1) - literals }
{
    let gain = cubes as u128 * literals.saturating_sub(1) as u128;
    gain.saturating_sub(literals as u128)
}

/// Whether a part of at most so many literals of so many cubes may save anything, and no less than the best so far.
pub fn can_win(best: &Option<Found>, cubes: usize, literals: usize) -> bool
    requires { literals ≤ 2 ^ 32 }
    ensures { result ≡ spec.can_win best.now cubes literals }
{
    let most = saved_by(cubes, literals);
    match best {
        None => most > 0,
        Some(old) => most >= old.saved,
    }
}

/// What was found, where something was, and else what was given.
pub fn leading<'a>(given: &'a Option<Found>, found: &'a Option<Found>) -> &'a Option<Found>
    ensures { result.now ≡ spec.leading given.now found.now }
{
    match found {
        Some(_) => found,
        None => given,
    }
}

/// Whether a part that saves so much is better than the best so far: it saves something, and more, or as much and comes before it.
pub fn is_ahead(best: &Option<Found>, saved: u128, cube: &Cube) -> bool
    ensures { result ≡ spec.is_ahead best.now saved cube.now }
{
    match best {
        None => saved > 0,
        Some(old) => {
            saved > old.saved
                || saved == old.saved && compare_cubes(cube, &old.cube) == Ordering::Less
        }
    }
}

/// The symbols of the node, where two cubes have just them in common and they are better than what was given and found, which
/// else stays.
pub fn look(
    alloc: Global,
    cubes: &[Cube],
    node: &Node,
    given: &Option<Found>,
    found: Option<Found>,
) -> Result<Option<Found>, Memory>
    requires node { IsNode cubes.now node.now }
    requires given { Saves given.now }
    requires found { IsFound cubes.now found }
    ensures { IfOk result (Looked cubes.now node.now.cube given.now found) }
{
    if node.cube.len() < 2 {
        return Ok(found);
    }
    let places = node.places.as_slice();
    let saved = saved_by(places.len(), node.cube.len());
    if !is_ahead(leading(given, &found), saved, &node.cube) {
        return Ok(found);
    }
    let meets = is_meet(alloc, cubes, places, &node.cube)?;
    if !meets {
        return Ok(found);
    }
    let cube = node.cube.copy()?;
    Ok(Some(Found { cube, saved }))
}
