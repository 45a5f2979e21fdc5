ghost use Rattle.mv_base.specs.Outside.{Appends};
ghost use Rattle.mv_format.specs.Lines.{number_line, numbers_line};

use itoa::Buffer;
use mv_base::{Failed, Sink, put_both};

/// Puts a line of these words and a number. It takes no memory.
pub fn put_number<E: Sink>(words: &[u8], number: u32, notes: &mut E) -> Result<(), Failed>
    ensures { Appends (E.state notes.old) (E.state notes.new)
        (number_line words.now number) result }
{
    let mut buffer = Buffer::new();
    put_both(words, buffer.format(number).as_bytes(), notes)?;
    notes.put(b"\n")
}

/// Puts a line of these words and two numbers. It takes no memory.
pub fn put_numbers<E: Sink>(
    words: &[u8],
    first: u128,
    second: u128,
    notes: &mut E,
) -> Result<(), Failed>
    ensures { Appends (E.state notes.old) (E.state notes.new)
        (numbers_line words.now first second) result }
{
    let mut buffer = Buffer::new();
    put_both(words, buffer.format(first).as_bytes(), notes)?;
    put_both(b" ", buffer.format(second).as_bytes(), notes)?;
    notes.put(b"\n")
}
