ghost use Rattle.std.specs.Prelude.{◌≡◌, IfOk, IfErr};
ghost use Rattle.mv_codes.specs.Tables as spec;
ghost use Rattle.mv_codes.specs.Rewriting.{IsCoding};
ghost use Rattle.mv_codes.specs.Wide.{IsTooWide};

use crate::Coding;
use crate::coder::LineCoder;
use mv_base::MAX_COMPOSED_LINES;
use mv_composite::{has_many_fanins, left_of_given};
use mv_cover::{Cover, CoverStop};
use std::alloc::Global;

/// The reader's table once the net is encoded: each of its lines with a literal on the net becomes one line for each code cube of
/// the literal's set. The lines are absorbed as they come.
/// It is Wide where it has more than `MAX_COMPOSED_LINES` lines or `MAX_FANINS` fanins; want of memory says nothing of the table.
pub fn reader_coded(alloc: Global, coding: &Coding, reader: &Cover) -> Result<Cover, CoverStop>
    requires { IsCoding coding.now }

    ensures cover { IfOk result (λ cover. cover ≡ spec.reader_coded coding.now reader.now) }
    ensures narrow { IfOk result (λ cover. IsTooWide cover → ⊥) }
    ensures wide { IfErr result
        (λ stop. stop ≡ CoverStop.Wide → IsTooWide (spec.reader_coded coding.now reader.now)) }
{
    let cover = match rewritten(alloc, coding, reader) {
        Ok(cover) => cover,
        Err(stop) => return Err(stop),
    };
    narrow(alloc, cover)
}

/// The reader's table once the net is encoded. It may be Wide where that has too many lines.
fn rewritten(alloc: Global, coding: &Coding, reader: &Cover) -> Result<Cover, CoverStop>
    requires { IsCoding coding.now }
    ensures cover { IfOk result (λ cover. cover ≡ spec.reader_coded coding.now reader.now) }
    ensures wide { IfErr result
        (λ stop. stop ≡ CoverStop.Wide → IsTooWide (spec.reader_coded coding.now reader.now)) }
{
    let coder = LineCoder { coding };
    let left = match left_of_given(alloc, &coder, reader.lines.as_slice()) {
        Ok(left) => left,
        Err(stop) => return Err(stop),
    };
    Ok(left.finish(reader.copied_default()?))
}

/// The cover, unless it is too wide.
fn narrow(alloc: Global, cover: Cover) -> Result<Cover, CoverStop>
    ensures cover { IfOk result (λ same. same ≡ cover) }
    ensures narrow { IfOk result (λ same. IsTooWide same → ⊥) }
    ensures wide { IfErr result (λ stop. stop ≡ CoverStop.Wide → IsTooWide cover) }
{
    if cover.lines.len() as u64 > MAX_COMPOSED_LINES {
        return Err(CoverStop::Wide);
    }
    if has_many_fanins(alloc, cover.lines.as_slice())? {
        return Err(CoverStop::Wide);
    }
    Ok(cover)
}
