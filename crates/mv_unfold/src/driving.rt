//! Nets that are driven more than once, or by nothing.
ghost use Rattle.std.specs.Prelude.{◌≡◌, length, IfOk};
ghost use Rattle.mv_fault.specs.Tells.{TellsFirst};
ghost use Rattle.mv_tree.specs.Places.{homes};
ghost use Rattle.mv_tree.specs.Unfolded.{unfolded};
ghost use Rattle.mv_design.specs.Nets.{root_of};
ghost use Rattle.mv_walk.specs.Openings.{AreOpened};
ghost use Rattle.mv_unfold.specs.Driven.{driving_faults, twice_counted, undriven_counted, with_driven};
ghost use Rattle.mv_unfold.specs.Laid.{IsLaid, places_of};

use crate::counts::{add_all, slot};
use crate::home_counts::home_counts;
use crate::layout::Layout;
use crate::tallies::tallies;
use mv_base::{Memory, Name, NameSet};
use mv_design::FileModel;
use mv_fault::FlatFault;
use std::alloc::Global;

/// Tells the first of all nets that is driven more than once; if there is none, the first that nothing drives.
pub fn check_driven(alloc: Global, layout: &Layout<'_>, names: &NameSet) -> Result<(), FlatFault>
    requires laid { IsLaid layout.now }
    requires opened { AreOpened layout.now.design.now layout.now.opened.now }
    requires names { names.now ≡ homes (places_of layout.now) }
    ensures { (h : AreOpened layout.now.design.now layout.now.opened.now)
        → TellsFirst FlatFault.Memory result
        (driving_faults (unfolded (root_of layout.now.design.now) h.tree) names.now) }
{
    names.distinct();
    let slots = tallies(alloc, layout)?;
    let slots = slots.as_slice();
    let root = layout.design.root as usize;
    let nets = &layout.nets.as_slice()[root];
    nets.distinct();
    let model = &layout.design.models.as_slice()[root];
    let root = root_counts(alloc, nets, model, slot(slots, root))?;
    let counts = home_counts(alloc, layout, slots, root.as_slice())?;
    check_twice(names.as_slice(), counts.as_slice())?;
    check_undriven(names.as_slice(), counts.as_slice())
}

/// The counts of the nets of a root with those of its model, and its inputs.
fn root_counts(
    alloc: Global,
    nets: &NameSet,
    root: &FileModel,
    inner: &[u8],
) -> Result<Vec<u8>, Memory>
    requires { length inner.now ≡ length nets.now }
    ensures { IfOk result
        (λ counts. counts.items ≡ with_driven nets.now inner.now root.now.inputs) }
{
    let mut counts = Vec::from_slice(alloc, inner)?;
    add_all(nets, &mut counts, root.inputs.as_slice());
    Ok(counts)
}

/// Tells the first of these nets whose count says that it is driven more than once.
fn check_twice(names: &[Name], counts: &[u8]) -> Result<(), FlatFault>
    requires { length counts.now ≡ length names.now }
    ensures { TellsFirst FlatFault.Memory result (twice_counted names.now counts.now) }
{
    for at in 0..names.len() {
        if counts[at] > 1 {
            return Err(FlatFault::DrivenTwice {
                net: names[at].copy()?,
            });
        }
    }
    Ok(())
}

/// Tells the first of these nets whose count says that nothing drives it.
fn check_undriven(names: &[Name], counts: &[u8]) -> Result<(), FlatFault>
    requires { length counts.now ≡ length names.now }
    ensures { TellsFirst FlatFault.Memory result (undriven_counted names.now counts.now) }
{
    for at in 0..names.len() {
        if counts[at] == 0 {
            return Err(FlatFault::Undriven {
                net: names[at].copy()?,
            });
        }
    }
    Ok(())
}
