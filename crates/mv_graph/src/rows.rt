//! Lists of nets, one for each number from 0.
ghost use Rattle.std.specs.Prelude.{◌≡◌, ◌<◌, [], ◌∷◌, ◌++◌, length, slice_set, replicate, IfOk, OnOk, OnErr};
ghost use Rattle.mv_graph.specs.Nets.{row};

use mv_base::{Items, Memory, NetId};
use std::alloc::Global;

/// As many empty lists.
pub fn empty_rows(alloc: Global, count: usize) -> Result<Items<Items<NetId>>, Memory>
    ensures { IfOk result (λ rows. rows ≡ replicate count []) }
{
    let mut rows = Items::new(alloc);
    'rows: for _ in 0..count {
        rows.push(Items::new(alloc))?;
    }
    Ok(rows)
}

/// Empty lists with room for so many nets each.
pub fn roomy_rows(alloc: Global, rooms: &[u32]) -> Result<Items<Items<NetId>>, Memory>
    ensures { IfOk result (λ rows. rows ≡ replicate (length rooms.now) []) }
{
    let mut rows = Items::with_room(alloc, rooms.len())?;
    for room in rooms {
        rows.push(Items::with_room(alloc, *room as usize)?)?;
    }
    Ok(rows)
}

/// Puts the net at the end of the list at this place. The other lists stay as they are, and all do on an error.
pub fn push_to(rows: &mut Items<Items<NetId>>, at: usize, net: NetId) -> Result<(), Memory>
    requires { at < length rows.old }
    ensures ok { OnOk result (rows.new ≡ slice_set rows.old at (row rows.old at ++ net ∷ [])) }
    ensures err { OnErr result (rows.new ≡ rows.old) }
{
    let mut list = rows.replace(at, Items::new(rows.allocator()));
    let pushed = list.push(net);
    rows.replace(at, list);
    pushed?;
    Ok(())
}
