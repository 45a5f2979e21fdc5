//! The names of the nets that come.
ghost use Rattle.std.specs.Prelude.{◌≡◌, true, IfOk};
ghost use Rattle.mv_base.specs.Names.{is_net_name};
ghost use Rattle.mv_encode.specs.Encoding.{AreFirst};
ghost use Rattle.mv_net.specs.Fresh.{IsFreshName};

use mv_base::{Items, Memory, Name};
use mv_net::Network;
use std::alloc::Global;

/// The first so many fresh names.
pub fn first_names(alloc: Global, net: &Network, count: u32) -> Result<Items<Name>, Memory>
    ensures { IfOk result (AreFirst net.now.nets count) }
{
    let mut names = Items::with_room(alloc, count as usize)?;
    for skip in 0..count {
        names.push(net.fresh_name(skip)?)?;
    }
    Ok(names)
}
