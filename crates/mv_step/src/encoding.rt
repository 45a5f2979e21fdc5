ghost use Rattle.std.specs.Prelude.{◌≡◌, ◌==◌, ◌≤◌, ◌&&◌, map, IfOk, length, drop};
ghost use Rattle.std.specs.List.{list_all};
ghost use Rattle.mv_step.specs.Sets.{number_said};
ghost use Rattle.mv_step.specs.Lines.{is_bit, is_code, are_codes, code_of, encode_said};

use crate::number::number_said;
use crate::said::Said;
use mv_base::{Items, Memory, Name};
use mv_entry::{Code, Rule};
use std::alloc::Global;

/// Whether the byte is a bit's digit.
fn is_bit(byte: u8) -> bool
    ensures { result ≡ is_bit byte }
{
    byte == b'0' || byte == b'1'
}

/// Whether all of these bytes are bits' digits.
fn are_bits(word: &[u8]) -> bool
    ensures { result ≡ list_all is_bit word.now }
{
    word.iter().all(|byte| is_bit(*byte))
}

/// Whether the word is a code of so many bits.
fn is_code(count: usize, word: &[u8]) -> bool
    ensures { result ≡ is_code count word.now }
{
    word.len() == count && are_bits(word)
}

/// Whether each of these words is a code of so many bits.
fn are_codes(count: usize, words: &[Name]) -> bool
    ensures { result ≡ are_codes count words.now }
{
    words.iter().all(|word| is_code(count, word.bytes()))
}

/// The code with these digits.
fn code_of(alloc: Global, word: &[u8]) -> Result<Code, Memory>
    ensures { IfOk result (λ code. code ≡ code_of word.now) }
{
    let mut bits = Items::with_room(alloc, word.len())?;
    for byte in word {
        bits.push(*byte == b'1')?;
    }
    Ok(Code { bits })
}

/// The codes with these digits, in order.
fn codes_of(alloc: Global, words: &[Name]) -> Result<Items<Code>, Memory>
    ensures { IfOk result (λ list. list ≡ map code_of words.now) }
{
    let mut list = Items::with_room(alloc, words.len())?;
    for word in words {
        list.push(code_of(alloc, word.bytes())?)?;
    }
    Ok(list)
}

/// The line of a rule that encodes a net, with these names and the codes that these words are.
fn encoded(alloc: Global, net: &Name, names: &[Name], words: &[Name]) -> Result<Said, Memory>
    ensures { IfOk result
        (λ s. s ≡ Said.Whole (Rule.Encode net.now names.now (map code_of words.now))) }
{
    let net = net.copy()?;
    let names = Items::of_names(alloc, names)?;
    let codes = codes_of(alloc, words)?;
    Ok(Said::Whole(Rule::Encode { net, names, codes }))
}

/// What the line of a rule says that encodes a net, with this word for the number of names, and these words behind it.
pub fn encode_said(alloc: Global, net: &Name, number: &[u8], words: &[Name]) -> Result<Said, Memory>
    ensures { IfOk result (λ s. s ≡ encode_said net.now (number_said number.now) words.now) }
{
    let Some(count) = number_said(number) else {
        return Ok(Said::Nothing);
    };
    let count = usize::from(count);
    if count > words.len() || !are_codes(count, &words[count..]) {
        return Ok(Said::Nothing);
    }
    encoded(alloc, net, &words[..count], &words[count..])
}
