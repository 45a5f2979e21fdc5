ghost use Rattle.std.specs.Prelude.{◌≡◌, ◌≤◌, MatchOption, IfOk, OnOk, All};
ghost use Rattle.mv_base.specs.declared.limits.TheConstants.{MAX_VALUES};
ghost use Rattle.mv_body.specs.Bodies.{IsKnown, IsLineKnown, IsTidyCube, IsTidyLine, AreTidyLines, cube_said, line_said, lines_said};

use crate::literal::{checked_literals, is_output};
use crate::sorted::{ascend, by_net};
use indexmap::IndexSet;
use mv_base::{Items, MAX_VALUES, Memory, PackedSet};
use mv_cover::{Cube, Line};
use mv_entry::{BodyLine, BodyLit};
use mv_net::Network;
use std::alloc::Global;

/// The cube of these literals, unless two are on one net or some net may not have one of them.
fn tidy_cube(alloc: Global, net: &Network, lits: &[BodyLit]) -> Result<Option<Cube>, Memory>
    requires { All (IsKnown net.now.nets) lits.now }
    ensures { IfOk result (λ found. MatchOption found
        (IsTidyCube net.now.nets lits.now → ⊥)
        (λ cube. IsTidyCube net.now.nets lits.now × (cube ≡ cube_said net.now.nets lits.now))) }
{
    let Some(said) = checked_literals(alloc, net, lits)? else {
        return Ok(None);
    };
    let sorted = by_net(said);
    if !ascend(sorted.as_slice()) {
        return Ok(None);
    }
    Ok(Some(Cube::new(alloc, sorted.as_slice())?))
}

/// The line over numbers, unless it can't be a line of a tidy body.
fn tidy_line(
    alloc: Global,
    net: &Network,
    values: u16,
    line: &BodyLine,
) -> Result<Option<Line>, Memory>
    requires known { IsLineKnown net.now.nets line.now }
    requires few { values ≤ MAX_VALUES }
    ensures { IfOk result (λ found. MatchOption found
        (IsTidyLine net.now.nets values line.now → ⊥)
        (λ tidy. IsTidyLine net.now.nets values line.now
        × (tidy ≡ line_said net.now.nets line.now))) }
{
    if !is_output(line.out.get(), values) {
        return Ok(None);
    }
    match tidy_cube(alloc, net, line.lits.as_slice())? {
        Some(cube) => Ok(Some(Line {
            cube,
            out: line.out.copy()?,
        })),
        None => Ok(None),
    }
}

/// The lines over numbers, unless two are equal or one can't be a line of a tidy body. Equal ones are found by their
/// hashes.
pub fn tidy_lines(
    alloc: Global,
    net: &Network,
    values: u16,
    lines: &[BodyLine],
) -> Result<Option<Items<Line>>, Memory>
    requires known { All (IsLineKnown net.now.nets) lines.now }
    requires few { values ≤ MAX_VALUES }
    ensures { IfOk result (λ found. MatchOption found
        (AreTidyLines net.now.nets values lines.now → ⊥)
        (λ tidy. AreTidyLines net.now.nets values lines.now
        × (tidy ≡ lines_said net.now.nets lines.now))) }
{
    let mut distinct = IndexSet::with_capacity(alloc, lines.len())?;
    for line in lines {
        let Some(tidy) = tidy_line(alloc, net, values, line)? else {
            return Ok(None);
        };
        if !distinct.insert(tidy)? {
            return Ok(None);
        }
    }
    Ok(Some(listed(alloc, distinct)?))
}

/// The lines of a set, in order.
fn listed(alloc: Global, lines: IndexSet<Line>) -> Result<Items<Line>, Memory>
    ensures { IfOk result (λ list. list ≡ lines.keys) }
{
    Ok(Items::of(lines.into_iter().collect(alloc)?))
}
