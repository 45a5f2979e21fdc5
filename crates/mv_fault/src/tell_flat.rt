ghost use Rattle.std.specs.Prelude.{◌≡◌, [], ◌∷◌, decimal};
ghost use Rattle.mv_base.specs.Outside.{Appends};
ghost use Rattle.mv_fault.specs.Told.{flat_told, flat_line};

use crate::flat::FlatFault as Fault;
use crate::tell::{put_fault_name, which_name};
use itoa::Buffer;
use mv_base::{Failed, Sink, put_both};

/// Puts a line with one word.
fn put_word<K: Sink>(name: &[u8], word: &[u8], out: &mut K) -> Result<(), Failed>
    ensures { Appends (K.state out.old) (K.state out.new)
        (flat_told name.now (word.now ∷ [])) result }
{
    put_fault_name(name, out)?;
    put_both(b" ", word, out)?;
    out.put(b"\n")
}

/// Puts a line with two words.
fn put_words<K: Sink>(name: &[u8], first: &[u8], second: &[u8], out: &mut K) -> Result<(), Failed>
    ensures { Appends (K.state out.old) (K.state out.new)
        (flat_told name.now (first.now ∷ second.now ∷ [])) result }
{
    put_fault_name(name, out)?;
    put_both(b" ", first, out)?;
    put_both(b" ", second, out)?;
    out.put(b"\n")
}

/// Puts a line with a number.
fn put_number<K: Sink>(name: &[u8], number: u64, out: &mut K) -> Result<(), Failed>
    ensures { Appends (K.state out.old) (K.state out.new)
        (flat_told name.now (decimal number ∷ [])) result }
{
    let mut buffer = Buffer::new();
    put_word(name, buffer.format(number).as_bytes(), out)
}

/// Puts a line with a word and a number.
fn put_limit<K: Sink>(name: &[u8], word: &[u8], number: u64, out: &mut K) -> Result<(), Failed>
    ensures { Appends (K.state out.old) (K.state out.new)
        (flat_told name.now (word.now ∷ decimal number ∷ [])) result }
{
    let mut buffer = Buffer::new();
    put_words(name, word, buffer.format(number).as_bytes(), out)
}

/// Puts the line that tells a fault of a design. It takes no memory.
pub fn put_flat_fault<K: Sink>(fault: &Fault, out: &mut K) -> Result<(), Failed>
    ensures { Appends (K.state out.old) (K.state out.new) (flat_line fault.now) result }
{
    match fault {
        Fault::NoSuchModel { model } => put_word(b"22 NoSuchModel", model.bytes(), out),
        Fault::Recursive { model } => put_word(b"23 Recursive", model.bytes(), out),
        Fault::NoFormal { formal } => put_word(b"24 NoFormal", formal.bytes(), out),
        Fault::PortValues { formal, actual } => {
            put_words(b"25 PortValues", formal.bytes(), actual.bytes(), out)
        }
        Fault::PortOpen { formal } => put_word(b"26 PortOpen", formal.bytes(), out),
        Fault::NameClash { net } => put_word(b"27 NameClash", net.bytes(), out),
        Fault::DrivenTwice { net } => put_word(b"28 DrivenTwice", net.bytes(), out),
        Fault::Undriven { net } => put_word(b"29 Undriven", net.bytes(), out),
        Fault::Cycle { net } => put_word(b"30 Cycle", net.bytes(), out),
        Fault::ResetReadsLatch { latch, reached } => {
            put_words(b"31 ResetReadsLatch", latch.bytes(), reached.bytes(), out)
        }
        Fault::ResetTwice { latch } => put_word(b"32 ResetTwice", latch.bytes(), out),
        Fault::NoLatch { net } => put_word(b"33 NoLatch", net.bytes(), out),
        Fault::JointWide { number } => put_number(b"34 JointWide", *number, out),
        Fault::Limit { which, number } => put_limit(b"35 Limit", which_name(*which), *number, out),
        Fault::Memory => out.put(b"# fault memory\n"),
    }
}
