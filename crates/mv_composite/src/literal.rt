ghost use Rattle.std.specs.Prelude.{◌≡◌, IfOk};
ghost use Rattle.mv_cover.specs.Cubes.{IsCube};
ghost use Rattle.mv_cover.specs.Meets.{literal_at};
ghost use Rattle.mv_cover.specs.Cofactors.{cube_without};

use mv_base::{Memory, NetId, ValueSet};
use mv_cover::{Cube, Lit};
use smallvec::SmallVec;

/// The set of the literal on the net, if there is one.
pub fn literal_on(lits: &[Lit], net: NetId) -> Option<ValueSet>
    ensures { result ≡ literal_at lits.now net.0 }
{
    for l in lits {
        if l.net() == net {
            return Some(l.set());
        }
    }
    None
}

/// The cube without its literal on the net.
pub fn without(cube: &Cube, net: NetId) -> Result<Cube, Memory>
    ensures { IfOk result (λ rest. rest ≡ cube_without net.0 cube.now) }
{
    Ok(Cube::of(others(cube, net)?))
}

/// The cube's literals on other nets.
fn others(cube: &Cube, net: NetId) -> Result<SmallVec<Lit, 2>, Memory>
    ensures rest { IfOk result (λ lits. lits.items ≡ cube_without net.0 cube.now) }
    ensures formed { IfOk result (λ _. IsCube cube.now) }
{
    let mut others = SmallVec::with_capacity(cube.allocator(), cube.len())?;
    for l in cube.lits() {
        if l.net() != net {
            others.push(l.copy()?)?;
        }
    }
    Ok(others)
}
