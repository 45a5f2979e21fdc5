//! The nets that are made for tables.
ghost use Rattle.std.specs.Prelude.{◌≡◌, ◌+◌, ◌<◌, ◌≤◌, ◌^◌, length, OnOk};
ghost use Rattle.mv_flat.specs.Marks.{AddsMade, AddsMark};

use crate::fresh::next_made;
use crate::nets::fresh_net;
use mv_acyclic::Numbers;
use mv_base::{Items, Memory};
use mv_cover::Cover;
use mv_net::FlatNet;
use std::alloc::Global;

/// Adds the net of a table's mark, if it gets one. `last` is the number of the last made name.
pub fn put_mark(
    nets: &mut Items<Option<FlatNet>>,
    last: &mut u32,
    alloc: Global,
    names: &Numbers,
    mark: Option<Cover>,
) -> Result<(), Memory>
    requires { last.old + length names.now + 2 < 2 ^ 32 }
    ensures adds { OnOk result (AddsMark names.now mark last.old last.new nets.old nets.new) }
    ensures near { OnOk result (last.new ≤ last.old + length names.now + 1) }
{
    match mark {
        Some(cover) => put_made(nets, last, alloc, names, 2, cover),
        None => Ok(()),
    }
}

/// Adds a net of so many values with this cover, and with a name that no net has. `last` is the number of the last made name.
pub fn put_made(
    nets: &mut Items<Option<FlatNet>>,
    last: &mut u32,
    alloc: Global,
    names: &Numbers,
    values: u16,
    cover: Cover,
) -> Result<(), Memory>
    requires { last.old + length names.now + 2 < 2 ^ 32 }
    ensures adds { OnOk result
        (AddsMade names.now
        (record { values = values; cover = cover }) last.old last.new nets.old nets.new) }
    ensures near { OnOk result (last.new ≤ last.old + length names.now + 1) }
{
    let made = next_made(alloc, names, *last)?;
    nets.push(Some(fresh_net(alloc, made.name, values, cover)))?;
    *last = made.number;
    Ok(())
}
