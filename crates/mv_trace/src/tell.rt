ghost use Rattle.std.specs.Prelude.{◌∷◌, [], decimal};
ghost use Rattle.mv_base.specs.Outside.{Appends};
ghost use Rattle.mv_trace.specs.Told.{head, trace_line, fault_line};

use crate::TraceFault;
use itoa::Buffer;
use mv_base::{Failed, Sink, put_both};

/// Puts what the line of a fault begins with.
fn put_head<K: Sink>(line: u32, name: &[u8], out: &mut K) -> Result<(), Failed>
    ensures { Appends (K.state out.old) (K.state out.new) (head line name.now) result }
{
    let mut buffer = Buffer::new();
    put_both(b"# fault trace ", buffer.format(line).as_bytes(), out)?;
    put_both(b" ", name, out)
}

/// Puts a line without words.
fn put_bare<K: Sink>(line: u32, name: &[u8], out: &mut K) -> Result<(), Failed>
    ensures { Appends (K.state out.old) (K.state out.new) (trace_line line name.now []) result }
{
    put_head(line, name, out)?;
    out.put(b"\n")
}

/// Puts a line with one word.
fn put_word<K: Sink>(line: u32, name: &[u8], word: &[u8], out: &mut K) -> Result<(), Failed>
    ensures { Appends (K.state out.old) (K.state out.new)
        (trace_line line name.now (word.now ∷ [])) result }
{
    put_head(line, name, out)?;
    put_both(b" ", word, out)?;
    out.put(b"\n")
}

/// Puts a line with two words.
fn put_words<K: Sink>(
    line: u32,
    name: &[u8],
    first: &[u8],
    second: &[u8],
    out: &mut K,
) -> Result<(), Failed>
    ensures { Appends (K.state out.old) (K.state out.new)
        (trace_line line name.now (first.now ∷ second.now ∷ [])) result }
{
    put_head(line, name, out)?;
    put_both(b" ", first, out)?;
    put_both(b" ", second, out)?;
    out.put(b"\n")
}

/// Puts a line with two numbers.
fn put_pair<K: Sink>(
    line: u32,
    name: &[u8],
    first: u64,
    second: u64,
    out: &mut K,
) -> Result<(), Failed>
    ensures { Appends (K.state out.old) (K.state out.new)
        (trace_line line name.now (decimal first ∷ decimal second ∷ [])) result }
{
    let mut front = Buffer::new();
    let mut back = Buffer::new();
    put_words(
        line,
        name,
        front.format(first).as_bytes(),
        back.format(second).as_bytes(),
        out,
    )
}

/// Puts the line that tells a fault. At Failed some first part of it was taken. It takes no memory.
pub fn put_trace_fault<K: Sink>(fault: &TraceFault, out: &mut K) -> Result<(), Failed>
    ensures { Appends (K.state out.old) (K.state out.new) (fault_line fault.now) result }
{
    match fault {
        TraceFault::Steps { line } => put_bare(*line, b"Steps", out),
        TraceFault::Columns { line, want, got } => put_pair(*line, b"Columns", *want, *got, out),
        TraceFault::UnknownValue { line, word } => {
            put_word(*line, b"UnknownValue", word.bytes(), out)
        }
        TraceFault::Memory => out.put(b"# fault memory\n"),
    }
}
