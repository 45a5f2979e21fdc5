ghost use Rattle.std.specs.Prelude.{◌≡◌, ◌≤◌, ◌<◌, IfSome};
ghost use Rattle.mv_step.specs.Sets.{number_below, number_said};

use mv_lex::decimal;

/// How many digits a number may have.
const MAX_DIGITS: usize = 5;
/// The numbers that stand in no set are below this.
const NUMBERS_END: u32 = 65_536;

/// The number below the end that the word says.
#[tactic(auto, unfolding(crate::specs::Sets::number_below))]
pub fn number_below(word: &[u8], end: u32) -> Option<u16>
    requires { end ≤ NUMBERS_END }
    ensures number { result ≡ number_below end word.now }
    ensures within { IfSome result (λ n. n < end) }
{
    if word.is_empty() || word.len() > MAX_DIGITS {
        return None;
    }
    let number = decimal(word)?;
    if number >= u128::from(end) {
        return None;
    }
    Some(number as u16)
}

/// The number that the word says where no set stands.
#[tactic(auto, unfolding(crate::specs::Sets::number_said))]
pub fn number_said(word: &[u8]) -> Option<u16>
    ensures { result ≡ number_said word.now }
{
    number_below(word, NUMBERS_END)
}
