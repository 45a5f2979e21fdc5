ghost use Rattle.std.specs.Prelude.{◌≡◌, ◌≤◌, IfSome};
ghost use Rattle.mv_command_line.specs.CommandLine.{number_of, budget_of, size_of, seed_of};

use mv_lex::decimal;

/// The most digits that a number of a command line may have.
const MAX_DIGITS: usize = 20;

/// The number that the word says, if it has at most so many digits and lies between these two.
#[tactic(auto, unfolding(crate::specs::CommandLine::number_of))]
fn number_of(word: &[u8], most: usize, least: u128, greatest: u128) -> Option<u128>
    requires { most ≤ MAX_DIGITS }
    ensures is { result ≡ number_of most least greatest word.now }
    ensures within { IfSome result (λ n. n ≤ greatest) }
{
    if word.is_empty() || word.len() > most {
        return None;
    }
    let number = decimal(word)?;
    if number < least || number > greatest {
        return None;
    }
    Some(number)
}

/// The budget that a word says.
pub fn budget_of(word: &[u8]) -> Option<u32>
    ensures { result ≡ budget_of word.now }
{
    let number = number_of(word, 7, 1_000, 4_000_000)?;
    Some(number as u32)
}

/// The size that a word says.
pub fn size_of(word: &[u8]) -> Option<u32>
    ensures { result ≡ size_of word.now }
{
    let number = number_of(word, 5, 1, 20_000)?;
    Some(number as u32)
}

/// The seed that a word says.
pub fn seed_of(word: &[u8]) -> Option<u64>
    ensures { result ≡ seed_of word.now }
{
    let number = number_of(word, 20, 0, 18_446_744_073_709_551_615)?;
    Some(number as u64)
}
