ghost use Rattle.std.specs.Prelude.{◌≡◌, true, ◌∷◌, []};
ghost use Rattle.std.specs.List.{flat_map, list_any};
ghost use Rattle.mv_page.specs.Page.{AddsPiece, paged};
ghost use Rattle.mv_lex.specs.Text.{line_text};
ghost use Rattle.mv_cover.specs.Covers.{default_gives};
ghost use Rattle.mv_cover.specs.Cubes.{nets_ascend};
ghost use Rattle.mv_graph.specs.Nets.{ids_ascend};
ghost use Rattle.mv_text.specs.Text.{numbers};
ghost use Rattle.mv_chosen.specs.Binary.{lacks_one};
ghost use Rattle.mv_blif_text.specs.BlifText.{row_words, picks, digit_of, rows_words, zeros_words, choice_words};

use crate::planes::put_plane;
use mv_base::{Failed, NetId, PackedSet, Sink, Value};
use mv_cover::{Cover, Line, Lit};
use mv_write::Page;

/// Appends a row: the plane of a cube at these fanins, if there are some, and this digit.
fn put_row<K: Sink>(
    lits: &[Lit],
    digit: u8,
    fanins: &[NetId],
    page: &mut Page,
    out: &mut K,
) -> Result<(), Failed>
    requires literals { nets_ascend lits.now ≡ true }
    requires fanins { ids_ascend fanins.now ≡ true }
    ensures { AddsPiece (paged (K.state out.old) page.old) (paged (K.state out.new) page.new)
        (line_text (row_words (numbers fanins.now) digit lits.now)) result }
{
    if fanins.is_empty() {
        return page.put(&[digit, b'\n'], out);
    }
    put_plane(lits, fanins, page, out)?;
    page.put(&[b' ', digit, b'\n'], out)
}

/// Whether one of the rows for 1, or of those for 0, is that of this line.
fn picks(ones: bool, line: &Line) -> bool
    ensures { result ≡ picks ones line.now }
{
    line.out.has(Value(1)) == ones
}

/// The digit at the end of the rows for 1, or of those for 0.
fn digit_of(ones: bool) -> u8
    ensures { result ≡ digit_of ones }
{
    if ones { b'1' } else { b'0' }
}

/// Appends the row of this line, if one of the rows for 1, or of those for 0, is.
fn put_picked<K: Sink>(
    line: &Line,
    ones: bool,
    fanins: &[NetId],
    page: &mut Page,
    out: &mut K,
) -> Result<(), Failed>
    requires { ids_ascend fanins.now ≡ true }
    ensures { AddsPiece (paged (K.state out.old) page.old) (paged (K.state out.new) page.new)
        (flat_map line_text (rows_words (numbers fanins.now) ones (line.now ∷ []))) result }
{
    if !picks(ones, line) {
        return Ok(());
    }
    put_row(line.cube.lits(), digit_of(ones), fanins, page, out)
}

/// Appends the rows for 1, or those for 0, of these lines.
fn put_rows<K: Sink>(
    lines: &[Line],
    ones: bool,
    fanins: &[NetId],
    page: &mut Page,
    out: &mut K,
) -> Result<(), Failed>
    requires { ids_ascend fanins.now ≡ true }
    ensures { AddsPiece (paged (K.state out.old) page.old) (paged (K.state out.new) page.new)
        (flat_map line_text (rows_words (numbers fanins.now) ones lines.now)) result }
{
    for line in lines {
        put_picked(line, ones, fanins, page, out)?;
    }
    Ok(())
}

/// Whether one of these lines lacks 1.
fn some_lacks_one(lines: &[Line]) -> bool
    ensures { result ≡ list_any lacks_one lines.now }
{
    lines.iter().any(|line| picks(false, line))
}

/// Appends the rows for 0, or one for 1 where there is none.
fn put_zeros<K: Sink>(
    lines: &[Line],
    fanins: &[NetId],
    page: &mut Page,
    out: &mut K,
) -> Result<(), Failed>
    requires { ids_ascend fanins.now ≡ true }
    ensures { AddsPiece (paged (K.state out.old) page.old) (paged (K.state out.new) page.new)
        (flat_map line_text (zeros_words (numbers fanins.now) lines.now)) result }
{
    if some_lacks_one(lines) {
        return put_rows(lines, false, fanins, page, out);
    }
    put_row(&[], b'1', fanins, page, out)
}

/// Whether the default gives 1.
fn gives_one(default: &Option<PackedSet>) -> bool
    ensures { result ≡ default_gives default.now 1 }
{
    match default {
        Some(set) => set.has(Value(1)),
        None => false,
    }
}

/// Appends the rows of a cover: those for 1, unless its default gives 1.
pub fn put_choice<K: Sink>(
    cover: &Cover,
    fanins: &[NetId],
    page: &mut Page,
    out: &mut K,
) -> Result<(), Failed>
    requires { ids_ascend fanins.now ≡ true }
    ensures { AddsPiece (paged (K.state out.old) page.old) (paged (K.state out.new) page.new)
        (flat_map line_text (choice_words (numbers fanins.now) cover.now)) result }
{
    let lines = cover.lines.as_slice();
    if gives_one(&cover.default) {
        return put_zeros(lines, fanins, page, out);
    }
    put_rows(lines, true, fanins, page, out)
}
