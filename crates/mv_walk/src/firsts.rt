//! Numbers found by name.
ghost use Rattle.std.specs.Prelude.{OnOk};
ghost use Rattle.mv_walk.specs.Commands.{FindsFirst};

use indexmap::IndexMap;
use mv_base::{Memory, Name};

/// Puts the name's number into the map, unless the name has one.
pub fn put_first(map: &mut IndexMap<Name, usize>, name: &Name, number: usize) -> Result<(), Memory>
    ensures { OnOk result (FindsFirst map.old map.new name.now number) }
{
    if !map.contains_key(name) {
        map.insert(name.copy()?, number)?;
    }
    Ok(())
}
