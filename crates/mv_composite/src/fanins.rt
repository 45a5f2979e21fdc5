ghost use Rattle.std.specs.Prelude.{◌≡◌, ◌<◌, OnOk, IfOk, MatchBool, nat_eq};
ghost use Rattle.indexmap.specs.IndexSet.{insert_all};
ghost use Rattle.mv_composite.specs.Wide.{HasManyFanins, cube_nets};

use indexmap::IndexSet;
use mv_base::{MAX_FANINS, Memory};
use mv_cover::{Cube, Line};
use std::alloc::Global;

/// Whether the lines have literals on more nets than a composite may have fanins.
pub fn has_many_fanins(alloc: Global, lines: &[Line]) -> Result<bool, Memory>
    ensures { IfOk result
        (λ many. MatchBool many (HasManyFanins lines.now) (HasManyFanins lines.now → ⊥)) }
{
    let mut nets = IndexSet::new(alloc);
    for line in lines {
        put_nets(&mut nets, &line.cube)?;
        if nets.len() as u64 > MAX_FANINS {
            return Ok(true);
        }
    }
    Ok(false)
}

/// Puts the numbers of the cube's nets to the others.
fn put_nets(nets: &mut IndexSet<u32>, cube: &Cube) -> Result<(), Memory>
    ensures { OnOk result (nets.new.keys ≡ insert_all nat_eq nets.old.keys (cube_nets cube.now)) }
{
    for l in cube.lits() {
        nets.insert(l.net().0)?;
    }
    Ok(())
}
