ghost use Rattle.std.specs.Prelude.{decimal, map, ◌∷◌};
ghost use Rattle.mv_page.specs.Page.{AddsPiece, paged};
ghost use Rattle.mv_lex.specs.Text.{spaced};
ghost use Rattle.mv_verify.specs.Texts.{values_line, point_text, choice_text, answer_text};

use crate::{Answer, Choice, Point};
use itoa::Buffer;
use mv_base::{Failed, Sink, Value};
use mv_trace::{AnswerPage, Values};

/// Appends a value as a position number, behind a space.
fn put_value<K: Sink>(value: Value, page: &mut AnswerPage, out: &mut K) -> Result<(), Failed>
    ensures { AddsPiece (paged (K.state out.old) page.old) (paged (K.state out.new) page.new)
        (32 ∷ decimal value.0) result }
{
    let mut buffer = Buffer::new();
    page.put_both(b" ", buffer.format(value.0).as_bytes(), out)
}

/// Appends values as position numbers, each behind a space.
fn put_values<K: Sink>(values: &[Value], page: &mut AnswerPage, out: &mut K) -> Result<(), Failed>
    ensures { AddsPiece (paged (K.state out.old) page.old) (paged (K.state out.new) page.new)
        (spaced (map decimal (map (λ v. v.0) values.now))) result }
{
    for value in values {
        put_value(*value, page, out)?;
    }
    Ok(())
}

/// Appends the line of a word and values.
fn put_line<K: Sink>(
    word: &[u8],
    values: &Values,
    page: &mut AnswerPage,
    out: &mut K,
) -> Result<(), Failed>
    ensures { AddsPiece (paged (K.state out.old) page.old) (paged (K.state out.new) page.new)
        (values_line word.now values.now) result }
{
    let list = values.list();
    page.put(word, out)?;
    put_values(list, page, out)?;
    page.put(b"\n", out)
}

/// Appends the lines of a point.
fn put_point<K: Sink>(point: &Point, page: &mut AnswerPage, out: &mut K) -> Result<(), Failed>
    ensures { AddsPiece (paged (K.state out.old) page.old) (paged (K.state out.new) page.new)
        (point_text point.now) result }
{
    put_line(b"inputs", &point.inputs, page, out)?;
    put_line(b"latches", &point.latches, page, out)
}

/// Appends the lines of a choice.
fn put_choice<K: Sink>(choice: &Choice, page: &mut AnswerPage, out: &mut K) -> Result<(), Failed>
    ensures { AddsPiece (paged (K.state out.old) page.old) (paged (K.state out.new) page.new)
        (choice_text choice.now) result }
{
    put_line(b"outputs", &choice.outputs, page, out)?;
    put_line(b"next", &choice.next, page, out)?;
    put_line(b"resets", &choice.resets, page, out)
}

/// Appends what is told of more that is allowed.
fn put_extra<K: Sink>(
    point: &Point,
    choice: &Choice,
    page: &mut AnswerPage,
    out: &mut K,
) -> Result<(), Failed>
    ensures { AddsPiece (paged (K.state out.old) page.old) (paged (K.state out.new) page.new)
        (answer_text (Answer.Extra point.now choice.now)) result }
{
    page.put(b"no extra\n", out)?;
    put_point(point, page, out)?;
    put_choice(choice, page, out)
}

/// Appends what is told of a point at which nothing is allowed any more.
fn put_lost<K: Sink>(point: &Point, page: &mut AnswerPage, out: &mut K) -> Result<(), Failed>
    ensures { AddsPiece (paged (K.state out.old) page.old) (paged (K.state out.new) page.new)
        (answer_text (Answer.Lost point.now)) result }
{
    page.put(b"no none\n", out)?;
    put_point(point, page, out)
}

/// Appends an answer. It takes no memory.
pub fn put_answer<K: Sink>(
    answer: &Answer,
    page: &mut AnswerPage,
    out: &mut K,
) -> Result<(), Failed>
    ensures { AddsPiece (paged (K.state out.old) page.old) (paged (K.state out.new) page.new)
        (answer_text answer.now) result }
{
    match answer {
        Answer::Yes => page.put(b"yes\n", out),
        Answer::Interface => page.put(b"no interface\n", out),
        Answer::Extra(point, choice) => put_extra(point, choice, page, out),
        Answer::Lost(point) => put_lost(point, page, out),
    }
}
