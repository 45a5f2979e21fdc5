//! The names of a place's nets in the whole.
ghost use Rattle.std.specs.Prelude.{◌≡◌, ◌<◌, ◌≤◌, ◌++◌, length, map, IfOk, OnOk};
ghost use Rattle.mv_unfold.specs.Laid.{IsLaid, home_in, places_of};
ghost use Rattle.mv_unfold.specs.Placed.{place_at};
ghost use Rattle.mv_unfold.specs.Recent.{AreHomes};

use crate::layout::Layout;
use crate::naming::name_under;
use crate::recent::Recent;
use mv_base::{Items, Memory, Name};
use std::alloc::Global;

/// The names of a place's nets in the whole.
pub fn homes(
    alloc: Global,
    layout: &Layout<'_>,
    recent: &mut Recent,
    number: usize,
    nets: &[Name],
) -> Result<Items<Name>, Memory>
    requires laid { IsLaid layout.now }
    requires number { number ≤ length layout.now.opened.now }
    requires right { AreHomes (home_in layout.now) recent.old.slots }
    ensures names { IfOk result
        (λ names. names ≡ map (place_at (places_of layout.now) number).home nets.now) }
    ensures right { OnOk result (AreHomes (home_in layout.now) recent.new.slots) }
{
    let mut names = Items::with_room(alloc, nets.len())?;
    for net in nets {
        names.push(home(alloc, layout, recent, number, net)?)?;
    }
    Ok(names)
}

/// The name of a place's net in the whole: one that was found lately, or else that of the net round it, or of its own.
pub fn home(
    alloc: Global,
    layout: &Layout<'_>,
    recent: &mut Recent,
    number: usize,
    net: &Name,
) -> Result<Name, Memory>
    requires laid { IsLaid layout.now }
    requires number { number ≤ length layout.now.opened.now }
    requires right { AreHomes (home_in layout.now) recent.old.slots }
    ensures name { IfOk result
        (λ name. name ≡ (place_at (places_of layout.now) number).home net.now) }
    ensures right { OnOk result (AreHomes (home_in layout.now) recent.new.slots) }
{
    if number == 0 {
        return net.copy();
    }
    if let Some(name) = recent.find(number, net) {
        return name.copy();
    }
    match layout.actual(number, net) {
        Some(actual) => {
            let round = layout.opened[number - 1].round as usize;
            let outer = home(alloc, layout, recent, round, actual)?;
            recent.keep(number, net, outer)
        }
        None => {
            let own = own_name(alloc, layout, number, net)?;
            recent.keep(number, net, own)
        }
    }
}

/// The name of a net that is at home in a place.
fn own_name(alloc: Global, layout: &Layout<'_>, number: usize, net: &Name) -> Result<Name, Memory>
    requires laid { IsLaid layout.now }
    requires number { number ≤ length layout.now.opened.now }
    ensures { IfOk result
        (λ name. name ≡ (place_at (places_of layout.now) number).path ++ net.now) }
{
    let mut path = Vec::new(alloc);
    layout.add_path(&mut path, number)?;
    name_under(alloc, path.as_slice(), net)
}
