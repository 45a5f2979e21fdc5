ghost use Rattle.std.specs.Prelude.{◌≡◌, ◌<◌, ◌≤◌, length, min, IfOk};
ghost use Rattle.std.specs.List.{list_all};
ghost use Rattle.mv_script.specs.Numbers.{is_digit, is_number, number_said, number_from};

use crate::FaultKind;

/// Numbers from this one on aren't told apart: none of them is in the range of a script's number.
const LARGE: u64 = 10_000;

/// Whether the byte is a digit.
fn is_digit(byte: u8) -> bool
    ensures { result ≡ is_digit byte }
{
    byte >= b'0' && byte <= b'9'
}

/// Whether all bytes are digits.
fn are_digits(word: &[u8]) -> bool
    ensures { result ≡ list_all is_digit word.now }
{
    word.iter().all(|byte| is_digit(*byte))
}

/// Whether the word is a number.
fn is_number(word: &[u8]) -> bool
    ensures { result ≡ is_number word.now }
{
    0 < word.len() && are_digits(word)
}

/// The number that the digits say, or a large one in place of a larger one.
#[tactic(auto, using(crate::proofs::Digits::digit_more))]
fn number_said(digits: &[u8]) -> u64
    ensures { result ≡ min (number_said digits.now) LARGE }
{
    let mut number = 0;
    for byte in digits {
        let digit = byte.saturating_sub(b'0');
        number = (number * 10 + digit as u64).min(LARGE);
    }
    number
}

/// The number that the word says, if it is one of these.
#[tactic(auto, unfolding(crate::specs::Numbers::number_from))]
pub fn number_from(word: &[u8], least: u64, most: u64) -> Result<u64, FaultKind>
    requires { most < LARGE }
    ensures is { result ≡ number_from least most word.now }
    ensures within { IfOk result (λ number. number ≤ most) }
{
    if !is_number(word) {
        return Err(FaultKind::Missing);
    }
    let number = number_said(word);
    if number < least || number > most {
        return Err(FaultKind::NumberRange);
    }
    Ok(number)
}
