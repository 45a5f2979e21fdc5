//! What is wrong with the nets and the reset tables of a design with instances.
ghost use Rattle.std.specs.Prelude.{◌≡◌, IfOk};
ghost use Rattle.mv_fault.specs.Tells.{TellsFirst};
ghost use Rattle.mv_design.specs.Nets.{root_of};
ghost use Rattle.mv_tree.specs.Places.{homes, places};
ghost use Rattle.mv_walk.specs.Openings.{AreOpened};
ghost use Rattle.mv_unfold.specs.Laid.{IsLaid};
ghost use Rattle.mv_unfold.specs.Whole.{whole_faults};

use crate::driving::check_driven;
use crate::home_names::home_names;
use crate::layout::Layout;
use crate::resets::check_all;
use mv_base::{Items, Name};
use mv_fault::FlatFault;
use std::alloc::Global;

/// The names of all nets in unfolding order, or the first fault of the nets and the reset tables of a design, but for what is above
/// what: a limit is passed, or two nets have one name; a net is driven twice; nothing drives a net; a reset table has no latch, or
/// isn't the only one of its latch. The time grows with the design, with its instances, and with the nets that are at home in
/// them.
pub fn check_layout(alloc: Global, layout: &Layout<'_>) -> Result<Items<Name>, FlatFault>
    requires laid { IsLaid layout.now }
    requires opened { AreOpened layout.now.design.now layout.now.opened.now }
    ensures faults { (h : AreOpened layout.now.design.now layout.now.opened.now)
        → TellsFirst FlatFault.Memory result (whole_faults (root_of layout.now.design.now) h.tree) }
    ensures nets { (h : AreOpened layout.now.design.now layout.now.opened.now)
        → IfOk result (λ nets. nets ≡ homes (places (root_of layout.now.design.now) h.tree)) }
{
    let names = home_names(alloc, layout)?;
    check_driven(alloc, layout, &names)?;
    check_all(alloc, layout)?;
    Ok(Items::of_names(alloc, names.as_slice())?)
}
