//! The latches of a network.
ghost use Rattle.std.specs.Prelude.{◌≡◌, ◌≤◌, length, map, IfOk};
ghost use Rattle.mv_base.specs.declared.limits.TheConstants.{MAX_NETS};
ghost use Rattle.mv_flat.specs.Built.{flat_latch, reset_in};

use mv_acyclic::Numbers;
use mv_base::{Items, Memory, Name, NetId};
use mv_design::FileLatch;
use mv_net::FlatLatch;
use mv_resets::reset_name;
use std::alloc::Global;

/// The latches by the numbers of their nets.
pub fn flat_latches(
    alloc: Global,
    names: &Numbers,
    latches: &[FileLatch],
) -> Result<Items<FlatLatch>, Memory>
    requires { length names.now ≤ MAX_NETS }
    ensures { IfOk result (λ flat. flat ≡ map (flat_latch names.now) latches.now) }
{
    let mut flat = Items::with_room(alloc, latches.len())?;
    for latch in latches {
        flat.push(FlatLatch {
            input: names.of(&latch.input),
            output: names.of(&latch.output),
            reset: reset_of(alloc, names, &latch.output)?,
        })?;
    }
    Ok(flat)
}

/// The number of the latch's reset net, if it has one.
fn reset_of(alloc: Global, names: &Numbers, latch: &Name) -> Result<Option<NetId>, Memory>
    requires { length names.now ≤ MAX_NETS }
    ensures { IfOk result (λ reset. reset ≡ reset_in names.now latch.now) }
{
    let name = reset_name(alloc, latch)?;
    match names.place(&name) {
        Some(place) => Ok(Some(NetId(place as u32))),
        None => Ok(None),
    }
}
