ghost use Rattle.std.specs.Prelude.{◌≡◌, IfOk, true, false};
ghost use Rattle.mv_cover.specs.Covers.{cube_reads};
ghost use Rattle.mv_cover.specs.Cofactors.{cubes_read};

use crate::Lit;
use indexmap::IndexMap;
use mv_base::{Items, Memory, NetId};
use std::alloc::Global;

/// A net, and what the cubes that it stands in weighed when it was chosen.
#[derive(Clone, Copy)]
struct Tally {
    net: NetId,
    weight: u64,
}

/// The net that the cubes it stands in give most weight; `first` is one of theirs. Of two cubes the one with a literal
/// less weighs twice as much, since it is sooner left without literals. It looks at each literal once.
pub(crate) fn busiest_net(
    alloc: Global,
    cubes: &[Items<Lit>],
    first: NetId,
) -> Result<NetId, Memory>
    requires { cubes_read cubes.now first.0 ≡ true }
    ensures { IfOk result (λ net. cubes_read cubes.now net.0 ≡ true) }
{
    let mut weights = IndexMap::new(alloc);
    let mut best = Tally {
        net: first,
        weight: 0,
    };
    for cube in cubes {
        best = weighed(&mut weights, cube.as_slice(), best)?;
    }
    Ok(best.net)
}

/// Adds the cube's weight to its nets: the busiest net is the one before, or one of the cube's that weighs more now.
fn weighed(weights: &mut IndexMap<NetId, u64>, cube: &[Lit], before: Tally) -> Result<Tally, Memory>
    ensures { IfOk result (λ best. cube_reads cube.now best.net.0 ≡ false → best.net ≡ before.net) }
{
    let mut best = before;
    let weight: u64 = 1 << (32 - cube.len().min(32));
    for l in cube {
        let total = weights.entry(l.net())?.or_insert(0);
        *total = total.saturating_add(weight);
        if *total > best.weight {
            best = Tally {
                net: l.net(),
                weight: *total,
            };
        }
    }
    Ok(best)
}
