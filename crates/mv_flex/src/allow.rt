ghost use Rattle.std.specs.Prelude.{◌≡◌, ◌&&◌, not, nat_eq};
ghost use Rattle.std.specs.List.{list_any};
ghost use Rattle.mv_base.specs.Set.{has, empty};
ghost use Rattle.mv_cover.specs.declared.line.Line.{Line};
ghost use Rattle.mv_cover.specs.Cubes.{holds, matches};
ghost use Rattle.mv_cover.specs.Covers.{some_matches, some_gives, default_gives, allowed};
ghost use Rattle.mv_flex.specs.Spaces.{value_at};
ghost use Rattle.mv_flex.specs.Flex.{literals_beside};
ghost use Rattle.mv_flex.specs.Checks.{chooses, default_chooses};

use crate::space::value_at;
use mv_base::{NetId, PackedSet, Value};
use mv_cover::{Cover, Line, Lit};

/// Whether every literal holds where these nets have these values.
pub fn all_hold(nets: &[NetId], values: &[u16], cube: &[Lit]) -> bool
    ensures { result ≡ matches (value_at nets.now values.now) cube.now }
{
    cube.iter().all(|literal| literal.has(Value(value_at(nets, values, literal.net()))))
}

/// Whether every literal that isn't on this net holds where these nets have these values.
pub fn others_hold(nets: &[NetId], values: &[u16], cube: &[Lit], beside: NetId) -> bool
    ensures { result ≡ matches (value_at nets.now values.now) (literals_beside beside.0 cube.now) }
{
    cube.iter().filter(|literal| literal.net() != beside).all(|literal| literal.has(Value(value_at(
        nets,
        values,
        literal.net(),
    ))))
}

/// Whether the line's cube holds where these nets have these values, and it gives the value.
pub fn line_gives(nets: &[NetId], values: &[u16], line: &Line, value: Value) -> bool
    ensures { result
        ≡ (matches (value_at nets.now values.now) line.now.cube && has line.now.out value.0) }
{
    all_hold(nets, values, line.cube.lits()) && line.out.has(value)
}

/// Whether some line whose cube holds gives the value.
fn some_gives(nets: &[NetId], values: &[u16], lines: &[Line], value: Value) -> bool
    ensures { result
        ≡ list_any (λ (l : Line). matches (value_at nets.now values.now) l.cube
        && has l.out value.0) lines.now }
{
    lines
        .iter()
        .any(|line| line_gives(nets, values, line, value))
}

/// Whether some line's cube holds.
fn some_holds(nets: &[NetId], values: &[u16], lines: &[Line]) -> bool
    ensures { result
        ≡ list_any (λ (l : Line). matches (value_at nets.now values.now) l.cube) lines.now }
{
    lines
        .iter()
        .any(|line| all_hold(nets, values, line.cube.lits()))
}

/// Whether the default gives the value.
pub fn default_gives(default: &Option<PackedSet>, value: Value) -> bool
    ensures { result ≡ default_gives default.now value.0 }
{
    match default {
        None => false,
        Some(out) => out.has(value),
    }
}

/// Whether the cover allows the value where these nets have these values.
#[tactic(auto, using(crate::proofs::Allowing::allowed_by))]
pub fn allows(nets: &[NetId], values: &[u16], cover: &Cover, value: Value) -> bool
    ensures { result ≡ allowed cover.now (value_at nets.now values.now) value.0 }
{
    let lines = cover.lines.as_slice();
    if some_gives(nets, values, lines, value) {
        return true;
    }
    !some_holds(nets, values, lines) && default_gives(&cover.default, value)
}

/// Whether some line whose cube holds gives some value.
fn some_chooses(nets: &[NetId], values: &[u16], lines: &[Line]) -> bool
    ensures { result
        ≡ list_any (λ (l : Line). matches (value_at nets.now values.now) l.cube
        && not (nat_eq l.out empty)) lines.now }
{
    lines.iter().any(|line| line_chooses(nets, values, line))
}

/// Whether the line's cube holds, and it gives some value.
fn line_chooses(nets: &[NetId], values: &[u16], line: &Line) -> bool
    ensures { result
        ≡ (matches (value_at nets.now values.now) line.now.cube
        && not (nat_eq line.now.out empty)) }
{
    all_hold(nets, values, line.cube.lits()) && !line.out.is_empty()
}

/// Whether the default gives some value.
pub fn default_chooses(default: &Option<PackedSet>) -> bool
    ensures { result ≡ default_chooses default.now }
{
    match default {
        None => false,
        Some(out) => !out.is_empty(),
    }
}

/// Whether the cover allows some value where these nets have these values.
pub fn chooses(nets: &[NetId], values: &[u16], cover: &Cover) -> bool
    ensures { result ≡ chooses cover.now (value_at nets.now values.now) }
{
    let lines = cover.lines.as_slice();
    if some_chooses(nets, values, lines) {
        return true;
    }
    !some_holds(nets, values, lines) && default_chooses(&cover.default)
}
