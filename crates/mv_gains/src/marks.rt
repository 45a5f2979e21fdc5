ghost use Rattle.std.specs.Prelude.{◌≡◌, ◌≤◌};
ghost use Rattle.mv_gains.specs.Grown.{IsOneOf};
ghost use Rattle.mv_gains.specs.Known.{ArePartsOn, IsCubeOn, IsLiteralOn, IsMarked, stamp_at};

use mv_base::NetId;
use mv_cover::{Cube, Lit};
use mv_divide::Part;

/// When a table that reads the net last changed: for a net that isn't listed, after all else.
pub fn stamp_of(changed: &[u64], net: NetId) -> u64
    ensures { result ≡ stamp_at changed.now net.0 }
{
    match changed.get(net.0 as usize) {
        Some(stamp) => *stamp,
        None => u64::MAX,
    }
}

/// Marks that a table with these covers changes now: at each net on which they have a literal.
pub fn mark_parts(changed: &mut Vec<u64>, now: u64, parts: &[Part])
    ensures { IsMarked now (ArePartsOn parts.now) changed.old.items changed.new.items }
{
    for part in parts {
        mark_cubes(changed, now, part.cover.cubes());
    }
}

/// Marks each net on which the cubes have a literal.
fn mark_cubes(changed: &mut Vec<u64>, now: u64, cubes: &[Cube])
    ensures { IsMarked now (IsOneOf IsCubeOn cubes.now) changed.old.items changed.new.items }
{
    for cube in cubes {
        mark_literals(changed, now, cube.lits());
    }
}

/// Marks the net of each literal.
fn mark_literals(changed: &mut Vec<u64>, now: u64, literals: &[Lit])
    ensures { IsMarked now (IsCubeOn literals.now) changed.old.items changed.new.items }
{
    for literal in literals {
        mark(changed, now, literal.net());
    }
}

/// Marks the net.
fn mark(changed: &mut Vec<u64>, now: u64, net: NetId)
    ensures { IsMarked now (λ m. net.0 ≡ m) changed.old.items changed.new.items }
{
    let place = net.0 as usize;
    if place < changed.len() {
        changed[place] = now;
    }
}
