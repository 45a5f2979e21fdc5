ghost use Rattle.std.specs.Prelude.{◌≡◌, ◌≤◌, ◌<◌, ◌+◌, length, map, filter, not, false, OnOk, OnErr, vec_len, vec_capacity};
ghost use Rattle.std.specs.List.{list_any, SwappedAt};
ghost use Rattle.mv_cover.specs.Cubes.{IsCube};
ghost use Rattle.mv_cover.specs.Absorb.{line_lies, with_line};
ghost use Rattle.mv_cover.specs.Marks.{line_marks, AreFar};

use crate::Line;
use crate::lies::lies_in_marked;
use crate::marks::{Marks, marks_of};
use mv_base::Memory;

/// How a line stands among others: whether it lies in one of them, and if not, whether one of them lies in it.
#[derive(Clone, Copy)]
struct Standing {
    inside: bool,
    over: bool,
}

/// Puts a line more among those that are left, which stand beside their marks.
pub(crate) fn put_line(
    lines: &mut Vec<Line>,
    marks: &mut Vec<Marks>,
    line: Line,
) -> Result<(), Memory>
    requires { marks.old.items ≡ map line_marks lines.old.items }
    ensures ok { OnOk result (lines.new.items ≡ with_line lines.old.items line) }
    ensures err { OnErr result (lines.new.items ≡ lines.old.items) }
    ensures marked { marks.new.items ≡ map line_marks lines.new.items }
    ensures formed { IsCube line.cube }
{
    let own = marks_of(&line);
    let standing = standing_among(&line, own, lines.as_slice(), marks.as_slice());
    if standing.inside {
        return Ok(());
    }
    lines.reserve(1)?;
    marks.reserve(1)?;
    keep_outside(&line, own, standing.over, lines, marks);
    lines.push_reserved(line);
    marks.push_reserved(own);
    Ok(())
}

/// How the line stands among the others. Both lines are looked at where the marks of one are marks of the other.
fn standing_among(line: &Line, own: Marks, others: &[Line], marks: &[Marks]) -> Standing
    requires own { own ≡ line_marks line.now }
    requires marked { marks.now ≡ map line_marks others.now }
    ensures inside { result.inside ≡ list_any (line_lies line.now) others.now }
    ensures over { result.inside ≡ false
        → result.over ≡ list_any (λ l. line_lies l line.now) others.now }
{
    let mut over = false;
    let mut place = next_close(own, marks, 0);
    while place < marks.len() {
        let other = &others[place];
        if lies_in_marked(line, own, other, marks[place]) {
            return Standing { inside: true, over };
        }
        over |= lies_in_marked(other, marks[place], line, own);
        place = next_close(own, marks, place + 1);
    }
    Standing {
        inside: false,
        over,
    }
}

/// The first place from this one on whose marks are close, or the place behind all.
fn next_close(own: Marks, marks: &[Marks], from: usize) -> usize
    requires { from ≤ length marks.now }
    ensures later { from ≤ result }
    ensures within { result ≤ length marks.now }
    ensures far { AreFar own marks.now from result }
{
    let mut place = from;
    while place < marks.len() && !own.are_close(marks[place]) {
        place += 1;
    }
    place
}

/// Keeps the lines that don't lie in this one, in order, beside their marks: all where it stands over none.
fn keep_outside(line: &Line, own: Marks, over: bool, lines: &mut Vec<Line>, marks: &mut Vec<Marks>)
    requires own { own ≡ line_marks line.now }
    requires marked { marks.old.items ≡ map line_marks lines.old.items }
    requires over { over ≡ list_any (λ l. line_lies l line.now) lines.old.items }
    ensures lines { lines.new.items ≡ filter (λ l. not (line_lies l line.now)) lines.old.items }
    ensures marked { marks.new.items ≡ map line_marks lines.new.items }
    ensures fewer_lines { vec_len lines.new ≤ vec_len lines.old }
    ensures fewer_marks { vec_len marks.new ≤ vec_len marks.old }
    ensures line_room { vec_capacity lines.new ≡ vec_capacity lines.old }
    ensures mark_room { vec_capacity marks.new ≡ vec_capacity marks.old }
{
    if !over {
        return;
    }
    let mut kept = 0;
    for place in 0..lines.len() {
        if !lies_in_marked(&lines[place], marks[place], line, own) {
            exchange(lines, marks, kept, place);
            kept += 1;
        }
    }
    lines.truncate(kept);
    marks.truncate(kept);
}

/// Exchanges the lines at two places, and their marks.
fn exchange(lines: &mut Vec<Line>, marks: &mut Vec<Marks>, first: usize, second: usize)
    requires marked { marks.old.items ≡ map line_marks lines.old.items }
    requires first { first < length lines.old.items }
    requires second { second < length lines.old.items }
    ensures lines { SwappedAt lines.old.items lines.new.items first second }
    ensures long { length lines.new.items ≡ length lines.old.items }
    ensures marked { marks.new.items ≡ map line_marks lines.new.items }
    ensures line_room { vec_capacity lines.new ≡ vec_capacity lines.old }
    ensures mark_room { vec_capacity marks.new ≡ vec_capacity marks.old }
{
    if first == second {
        return;
    }
    lines.swap(first, second);
    marks.swap(first, second);
}
