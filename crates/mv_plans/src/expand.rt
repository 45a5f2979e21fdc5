ghost use Rattle.std.specs.Prelude.{◌≡◌, ◌↔◌, ◌∷◌, [], true, All, IsTrue, IfOk, MatchBool};
ghost use Rattle.std.specs.List.{list_any, flat_map};
ghost use Rattle.mv_cover.specs.declared.line.Line.{Line};
ghost use Rattle.mv_cover.specs.Complement.{lines_for};
ghost use Rattle.mv_cover.specs.Equal.{line_eq};
ghost use Rattle.mv_cover.specs.Meets.{literal_at, met};
ghost use Rattle.mv_plans.specs.Expanding.{
  asks_one,
  line_expanded,
  expanded,
  AreSameLines,
  HasFound,
  HasMissed,
};

use indexmap::IndexSet;
use mv_base::{Memory, NetId, PackedSet, Value, ValueSet};
use mv_composite::{literal_on, without};
use mv_cover::{Cover, Cube, Line};
use std::alloc::Global;

/// Whether the body's lines stand for those of the old table, as a set, where the net d stands for the
/// lines of its own. It stops at the first line that isn't one of the old table, and keeps none but
/// those that are.
pub fn stands_for(
    alloc: Global,
    d: NetId,
    inner: &Cover,
    body: &Cover,
    old: &Cover,
) -> Result<bool, Memory>
    ensures { IfOk result (λ same. MatchBool same
        (AreSameLines (expanded d.0 inner.now.lines body.now.lines) old.now.lines)
        (AreSameLines (expanded d.0 inner.now.lines body.now.lines) old.now.lines → ⊥)) }
{
    let wanted = set_of(alloc, old.lines.as_slice())?;
    let mut found = IndexSet::new(alloc);
    if !find_all(d, inner, body.lines.as_slice(), &wanted, &mut found)? {
        return Ok(false);
    }
    Ok(are_all_in(old.lines.as_slice(), &found))
}

/// The lines as a set.
fn set_of(alloc: Global, lines: &[Line]) -> Result<IndexSet<Line>, Memory>
    ensures { IfOk result (λ set. AreSameLines set.keys lines.now) }
{
    let mut set = IndexSet::new(alloc);
    for line in lines {
        set.insert(line.copy()?)?;
    }
    Ok(set)
}

/// Whether each of the lines is in the set.
fn are_all_in(lines: &[Line], set: &IndexSet<Line>) -> bool
    ensures { IsTrue result
        ↔ All (λ (l : Line). list_any (line_eq l) set.now.keys ≡ true) lines.now }
{
    lines.iter().all(|line| set.contains(line))
}

/// Whether the lines that these stand for are wanted: they are then found.
fn find_all(
    d: NetId,
    inner: &Cover,
    lines: &[Line],
    wanted: &IndexSet<Line>,
    found: &mut IndexSet<Line>,
) -> Result<bool, Memory>
    ensures { IfOk result (λ yes. MatchBool yes
        (HasFound wanted.now.keys found.old.keys
        (expanded d.0 inner.now.lines lines.now) found.new.keys)
        (HasMissed wanted.now.keys (expanded d.0 inner.now.lines lines.now))) }
{
    for line in lines {
        if !find_expanded(d, inner, line, wanted, found)? {
            return Ok(false);
        }
    }
    Ok(true)
}

/// Whether the lines that a line stands for are wanted: they are then found.
fn find_expanded(
    d: NetId,
    inner: &Cover,
    line: &Line,
    wanted: &IndexSet<Line>,
    found: &mut IndexSet<Line>,
) -> Result<bool, Memory>
    ensures { IfOk result (λ yes. MatchBool yes
        (HasFound wanted.now.keys found.old.keys
        (line_expanded d.0 inner.now.lines line.now) found.new.keys)
        (HasMissed wanted.now.keys (line_expanded d.0 inner.now.lines line.now))) }
{
    if !is_one(literal_on(line.cube.lits(), d)) {
        return find(line.copy()?, wanted, found);
    }
    let rest = without(&line.cube, d)?;
    find_parts(&rest, &line.out, inner.lines.as_slice(), wanted, found)
}

/// Whether this is the set of the value 1 alone.
fn is_one(set: Option<ValueSet>) -> bool
    ensures { result ≡ asks_one set }
{
    match set {
        Some(set) => set == ValueSet::one(Value(1)),
        None => false,
    }
}

/// Whether the rest of a line, met with the cube of each part, is wanted with its output: the lines are then found.
fn find_parts(
    rest: &Cube,
    out: &PackedSet,
    parts: &[Line],
    wanted: &IndexSet<Line>,
    found: &mut IndexSet<Line>,
) -> Result<bool, Memory>
    ensures { IfOk result (λ yes. MatchBool yes
        (HasFound wanted.now.keys found.old.keys
        (flat_map (λ (k : Line). lines_for out.now (met rest.now k.cube)) parts.now) found.new.keys)
        (HasMissed wanted.now.keys
        (flat_map (λ (k : Line). lines_for out.now (met rest.now k.cube)) parts.now))) }
{
    for part in parts {
        if !find_part(rest, out, part, wanted, found)? {
            return Ok(false);
        }
    }
    Ok(true)
}

/// Whether the rest of a line, met with the cube of the part, is wanted with the output, if the two
/// meet: it is then found.
fn find_part(
    rest: &Cube,
    out: &PackedSet,
    part: &Line,
    wanted: &IndexSet<Line>,
    found: &mut IndexSet<Line>,
) -> Result<bool, Memory>
    ensures { IfOk result (λ yes. MatchBool yes
        (HasFound wanted.now.keys found.old.keys
        (lines_for out.now (met rest.now part.now.cube)) found.new.keys)
        (HasMissed wanted.now.keys (lines_for out.now (met rest.now part.now.cube)))) }
{
    match rest.meet(&part.cube)? {
        Some(cube) => {
            let out = out.copy()?;
            find(Line { cube, out }, wanted, found)
        }
        None => Ok(true),
    }
}

/// Whether the line is wanted: it is then found.
fn find(line: Line, wanted: &IndexSet<Line>, found: &mut IndexSet<Line>) -> Result<bool, Memory>
    ensures { IfOk result (λ yes. MatchBool yes
        (HasFound wanted.now.keys found.old.keys (line ∷ []) found.new.keys)
        (HasMissed wanted.now.keys (line ∷ []))) }
{
    if !wanted.contains(&line) {
        return Ok(false);
    }
    found.insert(line)?;
    Ok(true)
}
