ghost use Rattle.std.specs.Prelude.{◌≡◌, ◌&&◌, is_none, filter, OnOk};
ghost use Rattle.std.specs.List.{flat_map};
ghost use Rattle.mv_cover.specs.declared.line.Line.{Line as a_line};
ghost use Rattle.mv_cover.specs.Meets.{met};
ghost use Rattle.mv_cover.specs.Cofactors.{cubes_of};
ghost use Rattle.mv_cover.specs.Complement.{lines_for};
ghost use Rattle.mv_composite.specs.Composite as spec;
ghost use Rattle.mv_composite.specs.Composite.{cubes_giving, line_given};

use crate::Inner;
use crate::literal::{literal_on, without};
use crate::taker::Taker;
use mv_base::{Memory, PackedSet, ValueSet};
use mv_cover::{Cover, Cube, Line};

/// Puts what the reader's line gives to the taker; these are the cubes outside all lines of the net.
pub fn put_given<T: Taker>(
    taker: &mut T,
    inner: &Inner,
    outside: &[Cube],
    line: &Line,
) -> Result<(), Memory>
    ensures { OnOk result
        (T.takes taker.old taker.new (line_given outside.now inner.now line.now)) }
{
    let asked = literal_on(line.cube.lits(), inner.net);
    if stays_whole(inner, &asked) {
        taker.take(line.copy()?)?;
        return Ok(());
    }
    let rest = without(&line.cube, inner.net)?;
    put_where(taker, &rest, &inner.cover, outside, &asked, &line.out)?;
    Ok(())
}

/// Whether nothing is asked of a total net.
fn stays_whole(inner: &Inner, asked: &Option<ValueSet>) -> bool
    ensures { result ≡ (inner.now.total && is_none asked.now) }
{
    inner.total && asked.is_none()
}

/// Puts the meets of the cube with those where the net may have a value that is asked for.
fn put_where<T: Taker>(
    taker: &mut T,
    rest: &Cube,
    cover: &Cover,
    outside: &[Cube],
    asked: &Option<ValueSet>,
    out: &PackedSet,
) -> Result<(), Memory>
    ensures { OnOk result (T.takes taker.old taker.new
        (lines_for out.now
        (flat_map (met rest.now) (cubes_giving outside.now cover.now asked.now)))) }
{
    put_giving(taker, rest, cover.lines.as_slice(), asked, out)?;
    if !default_meets(&cover.default, asked) {
        return Ok(());
    }
    put_all(taker, rest, outside, out)?;
    Ok(())
}

/// Puts the meets of the cube with those of the lines that give a value that is asked for.
fn put_giving<T: Taker>(
    taker: &mut T,
    rest: &Cube,
    lines: &[Line],
    asked: &Option<ValueSet>,
    out: &PackedSet,
) -> Result<(), Memory>
    ensures { OnOk result (T.takes taker.old taker.new
        (lines_for out.now
        (flat_map (met rest.now)
        (cubes_of (filter (λ (l : a_line). spec.set_meets asked.now l.out) lines.now))))) }
{
    for line in lines {
        if set_meets(asked, &line.out) {
            put_met(taker, rest, &line.cube, out)?;
        }
    }
    Ok(())
}

/// Puts lines of this output: the meets of the cube with each of these.
pub fn put_all<T: Taker>(
    taker: &mut T,
    rest: &Cube,
    cubes: &[Cube],
    out: &PackedSet,
) -> Result<(), Memory>
    ensures { OnOk result
        (T.takes taker.old taker.new (lines_for out.now (flat_map (met rest.now) cubes.now))) }
{
    for cube in cubes {
        put_met(taker, rest, cube, out)?;
    }
    Ok(())
}

/// Puts a line of the meet of two cubes, if they meet.
pub fn put_met<T: Taker>(
    taker: &mut T,
    rest: &Cube,
    other: &Cube,
    out: &PackedSet,
) -> Result<(), Memory>
    ensures { OnOk result
        (T.takes taker.old taker.new (lines_for out.now (met rest.now other.now))) }
{
    match rest.meet(other)? {
        None => Ok(()),
        Some(cube) => taker.take(Line {
            cube,
            out: out.copy()?,
        }),
    }
}

/// Whether the set has a value that is asked for; where none is, any will do.
fn set_meets(asked: &Option<ValueSet>, out: &PackedSet) -> bool
    ensures { result ≡ spec.set_meets asked.now out.now }
{
    match asked {
        None => true,
        Some(set) => out.get().meet(*set) != ValueSet::empty(),
    }
}

/// Whether the default, if there is one, has a value of the set that is asked for.
pub fn default_meets(default: &Option<PackedSet>, asked: &Option<ValueSet>) -> bool
    ensures { result ≡ spec.default_meets default.now asked.now }
{
    match (default, asked) {
        (Some(out), Some(set)) => out.get().meet(*set) != ValueSet::empty(),
        _ => false,
    }
}
