ghost use Rattle.std.specs.Prelude.{◌≡◌, ℕ, IfOk, IfErr, if◌then◌else◌, [], OnOk};
ghost use Rattle.mv_cover.specs.Meets.{literal_at};
ghost use Rattle.mv_cover.specs.Complement.{LinesSuit, complement_of};
ghost use Rattle.mv_composite.specs.Inside.{AreCubesOver, IsCoverOver, IsInner};
ghost use Rattle.mv_composite.specs.Composite as spec;
ghost use Rattle.mv_composite.specs.Composite.{composed, Composes, ReadsThrough};
ghost use Rattle.mv_composite.specs.Wide as wide;
ghost use Rattle.mv_composite.specs.Wide.{IsReaderWide, IsInnerWide, HasManyLines, HasManyFanins, IsTooWide};

use crate::Inner;
use crate::fanins::has_many_fanins;
use crate::given::left_of_given;
use crate::insertion::Insertion;
use crate::literal::literal_on;
use crate::put::default_meets;
use mv_base::MAX_COMPOSED_LINES;
use mv_cover::{Cover, CoverStop, Cube, Line};
use std::alloc::Global;

/// The composite of the reader's table for the net: the net's own table put in for the net. `counts` has the number of
/// values of each net by its number.
/// It is Wide where a complement that it makes use of is, or where it has more than `MAX_COMPOSED_LINES` lines or
/// `MAX_FANINS` fanins; want of memory says nothing of the covers. The lines are absorbed as they come.
pub fn compose(
    alloc: Global,
    counts: &[u16],
    inner: &Inner,
    reader: &Cover,
) -> Result<Cover, CoverStop>
    requires inner { IsInner counts.now inner.now }
    requires reader { AreCubesOver counts.now reader.now.lines }

    ensures cover { IfOk result (λ cover. cover ≡ composed counts.now inner.now reader.now) }
    ensures narrow { IfOk result (λ _. IsTooWide counts.now inner.now reader.now → ⊥) }
    ensures wide { IfErr result
        (λ stop. stop ≡ CoverStop.Wide → IsTooWide counts.now inner.now reader.now) }

    ensures means { IfOk result
        (λ cover. Composes counts.now inner.now.net.0 inner.now.cover reader.now cover) }
    ensures formed { (values : ℕ) → IsCoverOver counts.now values reader.now
        → IfOk result (λ cover. IsCoverOver counts.now values cover) }
    ensures reads { IfOk result
        (λ cover. ReadsThrough inner.now.net.0 inner.now.cover reader.now cover) }
{
    match composite(alloc, counts, inner, reader) {
        Ok(cover) => Ok(cover),
        Err(stop) => Err(stop),
    }
}

/// The composite, if it isn't too wide.
fn composite(
    alloc: Global,
    counts: &[u16],
    inner: &Inner,
    reader: &Cover,
) -> Result<Cover, CoverStop>
    requires inner { IsInner counts.now inner.now }
    requires reader { AreCubesOver counts.now reader.now.lines }
    ensures cover { IfOk result (λ cover. cover ≡ composed counts.now inner.now reader.now) }
    ensures narrow { IfOk result (λ _. IsTooWide counts.now inner.now reader.now → ⊥) }
    ensures wide { IfErr result
        (λ stop. stop ≡ CoverStop.Wide → IsTooWide counts.now inner.now reader.now) }
{
    let spelled = match spelled(alloc, counts, inner, reader) {
        Ok(spelled) => spelled,
        Err(stop) => return Err(stop),
    };
    let outside = match outside(alloc, counts, inner, spelled.lines.as_slice()) {
        Ok(outside) => outside,
        Err(stop) => return Err(stop),
    };
    let insertion = Insertion {
        inner,
        outside: outside.as_slice(),
    };
    let left = match left_of_given(alloc, &insertion, spelled.lines.as_slice()) {
        Ok(left) => left,
        Err(stop) => return Err(stop),
    };
    let cover = left.finish(spelled.default);
    if cover.lines.len() as u64 > MAX_COMPOSED_LINES {
        return Err(CoverStop::Wide);
    }
    if has_many_fanins(alloc, cover.lines.as_slice())? {
        return Err(CoverStop::Wide);
    }
    Ok(cover)
}

/// The reader, with its default spelled out where it can't stay.
fn spelled(alloc: Global, counts: &[u16], inner: &Inner, reader: &Cover) -> Result<Cover, CoverStop>
    requires { LinesSuit counts.now reader.now.lines }
    ensures cover { IfOk result (λ cover. cover ≡ spec.spelled counts.now inner.now reader.now) }
    ensures narrow { IfOk result (λ _. IsReaderWide counts.now inner.now reader.now → ⊥) }
    ensures wide { IfErr result
        (λ stop. stop ≡ CoverStop.Wide → IsReaderWide counts.now inner.now reader.now) }
{
    if inner.total && inner.plain {
        return Ok(reader.copy()?);
    }
    match reader.spell_default(alloc, counts) {
        Ok(cover) => Ok(cover),
        Err(stop) => Err(stop),
    }
}

/// The cubes outside all lines of the net, where some reader's line asks for a value that its default has; else none.
fn outside(
    alloc: Global,
    counts: &[u16],
    inner: &Inner,
    lines: &[Line],
) -> Result<Vec<Cube>, CoverStop>
    requires { LinesSuit counts.now inner.now.cover.lines }
    ensures cubes { IfOk result
        (λ cubes. cubes.items
        ≡ (if wide.default_asked inner.now lines.now then complement_of counts.now inner.now.cover.lines else [])) }
    ensures narrow { IfOk result (λ _. IsInnerWide counts.now inner.now lines.now → ⊥) }
    ensures wide { IfErr result
        (λ stop. stop ≡ CoverStop.Wide → IsInnerWide counts.now inner.now lines.now) }
{
    if !default_asked(inner, lines) {
        return Ok(Vec::new(alloc));
    }
    match inner.cover.complement(alloc, counts) {
        Ok(cubes) => Ok(cubes),
        Err(stop) => Err(stop),
    }
}

/// Whether some line asks for a value that the net's default has.
fn default_asked(inner: &Inner, lines: &[Line]) -> bool
    ensures { result ≡ wide.default_asked inner.now lines.now }
{
    lines.iter().any(|line| line_asks_default(inner, line))
}

/// Whether the line asks for a value that the net's default has.
fn line_asks_default(inner: &Inner, line: &Line) -> bool
    ensures { result
        ≡ spec.default_meets inner.now.cover.default (literal_at line.now.cube inner.now.net.0) }
{
    default_meets(
        &inner.cover.default,
        &literal_on(line.cube.lits(), inner.net),
    )
}
