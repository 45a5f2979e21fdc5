//! The faults of reset tables.
ghost use Rattle.std.specs.Prelude.{◌≡◌, ◌≤◌, length, replicate, false, IfOk};
ghost use Rattle.std.specs.List.{flat_map};
ghost use Rattle.mv_fault.specs.Tells.{TellsFirst};
ghost use Rattle.mv_unfold.specs.Laid.{IsLaid, places_of};
ghost use Rattle.mv_unfold.specs.Placed.{place_at};
ghost use Rattle.mv_unfold.specs.Resets.{at_home};
ghost use Rattle.mv_unfold.specs.Whole.{place_faults};

use crate::homes::home;
use crate::layout::Layout;
use crate::recent::Recent;
use mv_acyclic::check_resets;
use mv_base::Memory;
use mv_fault::FlatFault;
use std::alloc::Global;

/// Tells the first fault of the reset tables of all places. Each model is looked at once, however often it is instanced.
pub fn check_all(alloc: Global, layout: &Layout<'_>) -> Result<(), FlatFault>
    requires { IsLaid layout.now }
    ensures { TellsFirst FlatFault.Memory result (flat_map place_faults (places_of layout.now)) }
{
    let mut looked = unlooked(alloc, layout.design.models.len())?;
    for number in 0..layout.models.len() {
        let model = layout.model(number);
        if !looked[model] {
            check_place(alloc, layout, number)?;
            looked[model] = true;
        }
    }
    Ok(())
}

/// So many models, none of which was looked at.
fn unlooked(alloc: Global, count: usize) -> Result<Vec<bool>, Memory>
    ensures { IfOk result (λ looked. looked.items ≡ replicate count false) }
{
    Ok(vec![in alloc; false; count]?)
}

/// Tells the first fault of the reset tables of a place.
fn check_place(alloc: Global, layout: &Layout<'_>, number: usize) -> Result<(), FlatFault>
    requires laid { IsLaid layout.now }
    requires number { number ≤ length layout.now.opened.now }
    ensures { TellsFirst FlatFault.Memory result
        (place_faults (place_at (places_of layout.now) number)) }
{
    match check_resets(
        alloc,
        &layout.design.models.as_slice()[layout.model(number)],
    ) {
        Ok(()) => Ok(()),
        Err(fault) => Err(placed_fault(alloc, layout, number, fault)?),
    }
}

/// The fault of a reset table of a place, with the name of its latch in the whole.
fn placed_fault(
    alloc: Global,
    layout: &Layout<'_>,
    number: usize,
    fault: FlatFault,
) -> Result<FlatFault, Memory>
    requires laid { IsLaid layout.now }
    requires number { number ≤ length layout.now.opened.now }
    ensures { IfOk result (λ f. f ≡ at_home (place_at (places_of layout.now) number) fault) }
{
    let mut recent = Recent::of_places(alloc, 0)?;
    match fault {
        FlatFault::NoLatch { net } => Ok(FlatFault::NoLatch {
            net: home(alloc, layout, &mut recent, number, &net)?,
        }),
        FlatFault::ResetTwice { latch } => Ok(FlatFault::ResetTwice {
            latch: home(alloc, layout, &mut recent, number, &latch)?,
        }),
        other => Ok(other),
    }
}
