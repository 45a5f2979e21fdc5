ghost use Rattle.std.specs.Prelude.{◌≡◌, ◌≤◌, MatchBool, MatchOption, IfOk};
ghost use Rattle.mv_base.specs.declared.limits.TheConstants.{MAX_VALUES};
ghost use Rattle.mv_cover.specs.Absorb.{some_bare};
ghost use Rattle.mv_body.specs.Bodies.{AreKnown, IsTidy, IsDefaultBeside, cover_said};

use crate::line::tidy_lines;
use crate::literal::is_output;
use mv_base::{MAX_VALUES, Memory, ValueSet};
use mv_cover::{Cover, Line};
use mv_entry::Body;
use mv_net::Network;
use std::alloc::Global;

/// The cover that the body says over the numbers of the network, for a net of so many values. None exactly where the body
/// isn't tidy: a line names a net twice, a set has other values than its net or is empty or full, an output or the default
/// has other values than the net or is empty, two lines are equal as cubes, or a default stands beside a line without
/// literals.
pub fn tidy_cover(
    alloc: Global,
    net: &Network,
    values: u16,
    body: &Body,
) -> Result<Option<Cover>, Memory>
    requires known { AreKnown net.now.nets body.now }
    requires few { values ≤ MAX_VALUES }
    ensures { IfOk result (λ found. MatchOption found
        (IsTidy net.now.nets values body.now → ⊥)
        (λ cover. IsTidy net.now.nets values body.now
        × (cover ≡ cover_said net.now.nets body.now))) }
{
    let Some(lines) = tidy_lines(alloc, net, values, body.lines.as_slice())? else {
        return Ok(None);
    };
    if !is_default_beside(body.default_set(), values, lines.as_slice()) {
        return Ok(None);
    }
    Ok(Some(Cover::new(alloc, lines, body.default_set())?))
}

/// Whether the default of a net of so many values may stand beside the lines.
fn is_default_beside(default: Option<ValueSet>, values: u16, lines: &[Line]) -> bool
    requires { values ≤ MAX_VALUES }
    ensures { MatchBool result (IsDefaultBeside values default lines.now)
        (IsDefaultBeside values default lines.now → ⊥) }
{
    match default {
        Some(out) => is_output(out, values) && !some_line_is_bare(lines),
        None => true,
    }
}

/// Whether some line has no literal.
fn some_line_is_bare(lines: &[Line]) -> bool
    ensures { result ≡ some_bare lines.now }
{
    lines.iter().any(|line| line.cube.len() == 0)
}
