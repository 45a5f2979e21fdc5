ghost use Rattle.std.specs.Prelude.{◌≡◌, [], ◌∷◌, decimal};
ghost use Rattle.mv_base.specs.Outside.{Appends};
ghost use Rattle.mv_fault.specs.Told.{which_name, fault_name, head, told, parse_line};

use crate::fault::{ParseFault as Fault, Which};
use itoa::Buffer;
use mv_base::{Failed, Name, Sink, put_both};

/// The name of a limit, as it is told.
pub fn which_name(which: Which) -> &'static [u8]
    ensures { result.now ≡ which_name which }
{
    match which {
        Which::Values => b"Values",
        Which::Columns => b"Columns",
        Which::TableLines => b"TableLines",
        Which::Models => b"Models",
        Which::Depth => b"Depth",
        Which::Instances => b"Instances",
        Which::Nets => b"Nets",
        Which::NetName => b"NetName",
        Which::FlatLines => b"FlatLines",
        Which::FlatEntries => b"FlatEntries",
    }
}

/// Puts what the line of a fault of a network begins with: its number and name.
pub fn put_fault_name<K: Sink>(name: &[u8], out: &mut K) -> Result<(), Failed>
    ensures { Appends (K.state out.old) (K.state out.new) (fault_name name.now) result }
{
    put_both(b"# fault network ", name, out)
}

/// Puts what each line begins with.
fn put_head<K: Sink>(name: &[u8], line: u32, out: &mut K) -> Result<(), Failed>
    ensures { Appends (K.state out.old) (K.state out.new) (head name.now line) result }
{
    let mut buffer = Buffer::new();
    put_fault_name(name, out)?;
    put_both(b" line ", buffer.format(line).as_bytes(), out)
}

/// Puts the line of a fault of lines, of this number and name, that has no words. It takes no memory.
pub fn put_bare<K: Sink>(name: &[u8], line: u32, out: &mut K) -> Result<(), Failed>
    ensures { Appends (K.state out.old) (K.state out.new) (told name.now line []) result }
{
    put_head(name, line, out)?;
    out.put(b"\n")
}

/// Puts the line of a fault of lines, of this number and name, that has one word. It takes no memory.
pub fn put_word<K: Sink>(name: &[u8], line: u32, word: &Name, out: &mut K) -> Result<(), Failed>
    ensures { Appends (K.state out.old) (K.state out.new)
        (told name.now line (word.now ∷ [])) result }
{
    put_head(name, line, out)?;
    put_both(b" ", word.bytes(), out)?;
    out.put(b"\n")
}

/// Puts a line with two words.
fn put_words<K: Sink>(
    name: &[u8],
    line: u32,
    first: &[u8],
    second: &[u8],
    out: &mut K,
) -> Result<(), Failed>
    ensures { Appends (K.state out.old) (K.state out.new)
        (told name.now line (first.now ∷ second.now ∷ [])) result }
{
    put_head(name, line, out)?;
    put_both(b" ", first, out)?;
    put_both(b" ", second, out)?;
    out.put(b"\n")
}

/// Puts a line with a word and a number.
fn put_number<K: Sink>(
    name: &[u8],
    line: u32,
    word: &[u8],
    number: u64,
    out: &mut K,
) -> Result<(), Failed>
    ensures { Appends (K.state out.old) (K.state out.new)
        (told name.now line (word.now ∷ decimal number ∷ [])) result }
{
    let mut buffer = Buffer::new();
    put_words(name, line, word, buffer.format(number).as_bytes(), out)
}

/// Puts a line with two numbers.
fn put_pair<K: Sink>(
    name: &[u8],
    line: u32,
    first: u64,
    second: u64,
    out: &mut K,
) -> Result<(), Failed>
    ensures { Appends (K.state out.old) (K.state out.new)
        (told name.now line (decimal first ∷ decimal second ∷ [])) result }
{
    let mut buffer = Buffer::new();
    put_number(name, line, buffer.format(first).as_bytes(), second, out)
}

/// Puts the line that tells a fault. At Failed some first part of it was taken. It takes no memory.
pub fn put_parse_fault<K: Sink>(fault: &Fault, out: &mut K) -> Result<(), Failed>
    ensures { Appends (K.state out.old) (K.state out.new) (parse_line fault.now) result }
{
    match fault {
        Fault::UnknownCommand { line, word } => put_word(b"5 UnknownCommand", *line, word, out),
        Fault::OutsideModel { line } => put_bare(b"6 OutsideModel", *line, out),
        Fault::NoEnd { line } => put_bare(b"7 NoEnd", *line, out),
        Fault::Missing { line, word } => put_word(b"8 Missing", *line, word, out),
        Fault::Extra { line, word } => put_word(b"9 Extra", *line, word, out),
        Fault::BadCount { line, word } => put_word(b"10 BadCount", *line, word, out),
        Fault::ValueNames { line, wanted, got } => {
            put_pair(b"11 ValueNames", *line, *wanted, *got, out)
        }
        Fault::Redeclared { line, name } => put_word(b"12 Redeclared", *line, name, out),
        Fault::Columns { line, wanted, got } => put_pair(b"13 Columns", *line, *wanted, *got, out),
        Fault::UnknownValue { line, word } => put_word(b"14 UnknownValue", *line, word, out),
        Fault::BadEqual { line, name } => put_word(b"15 BadEqual", *line, name, out),
        Fault::DefaultTwice { line } => put_bare(b"16 DefaultTwice", *line, out),
        Fault::ModelTwice { line, name } => put_word(b"17 ModelTwice", *line, name, out),
        Fault::RootFault { line, name } => put_word(b"18 RootFault", *line, name, out),
        Fault::Repeated { line, name } => put_word(b"19 Repeated", *line, name, out),
        Fault::NoModel { line } => put_bare(b"20 NoModel", *line, out),
        Fault::Limit {
            line,
            which,
            number,
        } => put_number(b"21 Limit", *line, which_name(*which), *number, out),
        Fault::BadName { line, name } => put_word(b"36 BadName", *line, name, out),
        Fault::NoTable { line } => put_bare(b"37 NoTable", *line, out),
        Fault::LatchValues {
            line,
            input,
            output,
        } => put_words(b"38 LatchValues", *line, input.bytes(), output.bytes(), out),
        Fault::Memory => out.put(b"# fault memory\n"),
    }
}
