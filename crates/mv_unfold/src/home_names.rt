//! The names of all nets of a design with instances.
ghost use Rattle.std.specs.Prelude.{◌≡◌, ◌≤◌, ◌++◌, length, IfOk, OnOk};
ghost use Rattle.mv_base.specs.declared.limits.TheConstants.{MAX_FLAT_NETS as most_nets};
ghost use Rattle.mv_fault.specs.Tells.{TellsFirst};
ghost use Rattle.mv_tree.specs.Places.{homes, homes_at};
ghost use Rattle.mv_unfold.specs.Laid.{IsLaid, places_of};
ghost use Rattle.mv_unfold.specs.Named.{rest_faults};
ghost use Rattle.mv_unfold.specs.Placed.{place_at};
ghost use Rattle.mv_unfold.specs.Whole.{home_faults};

use crate::layout::Layout;
use crate::naming::add_spans;
use mv_base::NameSet;
use mv_fault::FlatFault;
use std::alloc::Global;

/// The names of all nets in unfolding order; or the first fault of these: a name is too long, an earlier net has it, or there is
/// one net too many. The time grows with the instances and with the nets that are at home in them.
pub fn home_names(alloc: Global, layout: &Layout<'_>) -> Result<NameSet, FlatFault>
    requires { IsLaid layout.now }
    ensures faults { TellsFirst FlatFault.Memory result
        (home_faults (homes (places_of layout.now))) }
    ensures names { IfOk result (λ names. names ≡ homes (places_of layout.now)) }
{
    let mut names = NameSet::with_room(alloc, layout.nets(0).len())?;
    for number in 0..layout.models.len() {
        add_homes(alloc, layout, &mut names, number)?;
    }
    Ok(names)
}

/// Adds the names of the nets of a place, up to the first with a fault.
fn add_homes(
    alloc: Global,
    layout: &Layout<'_>,
    names: &mut NameSet,
    number: usize,
) -> Result<(), FlatFault>
    requires laid { IsLaid layout.now }
    requires number { number ≤ length layout.now.opened.now }
    ensures faults { TellsFirst FlatFault.Memory result
        (rest_faults most_nets names.old (homes_at (place_at (places_of layout.now) number))) }
    ensures added { OnOk result
        (names.new ≡ names.old ++ homes_at (place_at (places_of layout.now) number)) }
{
    let own = layout.own(number);
    if own.is_empty() {
        return Ok(());
    }
    let mut path = Vec::new(alloc);
    layout.add_path(&mut path, number)?;
    let nets = layout.nets(number).as_slice();
    add_spans(alloc, names, path.as_slice(), nets, own)
}
