ghost use Rattle.std.specs.Prelude.{◌≡◌, ◌<◌, ◌≤◌, ◌∷◌, ◌++◌, [], length, IfOk, OnOk};
ghost use Rattle.mv_base.specs.declared.limits.TheConstants.{MAX_VALUES as most_values};
ghost use Rattle.mv_fault.specs.Tells.{Tells};
ghost use Rattle.mv_decl.specs.Line.{is_digits, number_said, told_number, numbers_below, value_names, named_values};
ghost use Rattle.mv_decl.specs.Line.{count_faults, value_faults, value_name_faults, length_faults};

use crate::commas::is_comma;
use itoa::Buffer;
use mv_base::{Items, MAX_VALUES, Memory, Name, NameSet};
use mv_fault::{ParseFault, Which};
use mv_word::is_value_name;
use std::alloc::Global;

/// Whether the word has digits only.
pub fn is_digits(word: &Name) -> bool
    ensures { result ≡ is_digits word.now }
{
    word.bytes()
        .iter()
        .all(|byte| b'0' <= *byte && *byte <= b'9')
}

/// The number that digits say, or the greatest one of the type, if it is larger.
fn number(digits: &[u8]) -> u64
    ensures { result ≡ told_number (number_said digits.now) }
{
    let mut number = 0_u64;
    for byte in digits {
        let digit = byte.saturating_sub(b'0');
        number = number.saturating_mul(10).saturating_add(digit as u64);
    }
    number
}

/// The count that the word says: from 1 to the most values that a net may have.
#[tactic(auto, unfolding(crate::specs::Line::count_faults))]
fn count(line: u32, word: &Name) -> Result<u16, ParseFault>
    ensures fault { Tells result (count_faults line word.now) }
    ensures ok { IfOk result (λ n. n ≡ number_said word.now) }
    ensures some { IfOk result (λ n. 0 < n) }
    ensures within { IfOk result (λ n. n ≤ most_values) }
{
    let number = number(word.bytes());
    if number == 0 {
        return Err(ParseFault::BadCount {
            line,
            word: word.copy()?,
        });
    }
    if number > MAX_VALUES as u64 {
        return Err(ParseFault::Limit {
            line,
            which: Which::Values,
            number,
        });
    }
    Ok(number as u16)
}

/// The names of values among these words, without the commas.
#[tactic(auto, using(mv_fault::proofs::Firsts::firsts))]
fn value_names(alloc: Global, line: u32, words: &[Name]) -> Result<Items<Name>, ParseFault>
    ensures fault { Tells result (value_name_faults line [] (value_names words.now)) }
    ensures ok { IfOk result (λ names. names ≡ value_names words.now) }
{
    let mut names = Items::new(alloc);
    let mut seen = NameSet::new(alloc);
    for word in words {
        if is_comma(word) {
            continue;
        }
        add_name(line, word, &mut seen)?;
        names.push(word.copy()?)?;
    }
    Ok(names)
}

/// Adds the name of a value to those before it.
#[tactic(auto, unfolding(crate::specs::Line::value_faults))]
fn add_name(line: u32, word: &Name, seen: &mut NameSet) -> Result<(), ParseFault>
    ensures fault { Tells result (value_faults line seen.old word.now) }
    ensures ok { OnOk result (seen.new ≡ seen.old ++ word.now ∷ []) }
{
    if !is_value_name(word.bytes()) {
        return Err(ParseFault::BadName {
            line,
            name: word.copy()?,
        });
    }
    if !seen.add(word.copy()?)? {
        return Err(ParseFault::Repeated {
            line,
            name: word.copy()?,
        });
    }
    Ok(())
}

/// The numbers below the count, spelled.
#[tactic(auto, using(crate::proofs::Numbers::numbers))]
fn numbers_below(alloc: Global, count: u16) -> Result<Items<Name>, Memory>
    ensures names { IfOk result (λ names. names ≡ numbers_below count) }
    ensures size { IfOk result (λ names. length names ≡ count) }
{
    let mut names = Items::new(alloc);
    for value in 0..count {
        let mut buffer = Buffer::new();
        names.push(Name::new(alloc, buffer.format(value).as_bytes())?)?;
    }
    Ok(names)
}

/// The values that the count and the words behind it say.
#[tactic(auto, using(mv_fault::proofs::Firsts::firsts))]
pub fn values(
    alloc: Global,
    line: u32,
    word: &Name,
    words: &[Name],
) -> Result<Items<Name>, ParseFault>
    ensures fault { Tells result
        (count_faults line word.now ++ value_name_faults line [] (value_names words.now)
        ++ length_faults line (number_said word.now) (value_names words.now)) }
    ensures ok { IfOk result
        (λ values. values ≡ named_values (number_said word.now) (value_names words.now)) }
    ensures some { IfOk result (λ values. 0 < length values) }
    ensures within { IfOk result (λ values. length values ≤ most_values) }
{
    let count = count(line, word)?;
    let names = value_names(alloc, line, words)?;
    if names.is_empty() {
        return Ok(numbers_below(alloc, count)?);
    }
    if names.len() != count as usize {
        return Err(ParseFault::ValueNames {
            line,
            wanted: count as u64,
            got: names.len() as u64,
        });
    }
    Ok(names)
}
