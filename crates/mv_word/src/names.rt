ghost use Rattle.std.specs.Prelude.{◌≡◌, ◌<◌, ◌==◌, ◌||◌, ◌∷◌, [], length, codes};
ghost use Rattle.std.specs.List.{list_all, list_any};
ghost use Rattle.mv_base.specs.Names.{is_net_name, is_model_name, is_value_name, is_bracketed, same_word, ends_with, begins_with};
ghost use Rattle.mv_word.specs.Plain.{is_plain};

use mv_base::same_bytes;

/// Which bytes stand in names of nets: those that can be seen, but for `#` and `,`.
const PLAIN: [bool; 256] = [
    false, false, false, false, false, false, false, false, false, false, false, false, false,
    false, false, false, false, false, false, false, false, false, false, false, false, false,
    false, false, false, false, false, false, false, true, true, false, true, true, true, true,
    true, true, true, true, false, true, true, true, true, true, true, true, true, true, true,
    true, true, true, true, true, true, true, true, true, true, true, true, true, true, true, true,
    true, true, true, true, true, true, true, true, true, true, true, true, true, true, true, true,
    true, true, true, true, true, true, true, true, true, true, true, true, true, true, true, true,
    true, true, true, true, true, true, true, true, true, true, true, true, true, true, true, true,
    true, true, true, true, true, true, true, true, false, false, false, false, false, false,
    false, false, false, false, false, false, false, false, false, false, false, false, false,
    false, false, false, false, false, false, false, false, false, false, false, false, false,
    false, false, false, false, false, false, false, false, false, false, false, false, false,
    false, false, false, false, false, false, false, false, false, false, false, false, false,
    false, false, false, false, false, false, false, false, false, false, false, false, false,
    false, false, false, false, false, false, false, false, false, false, false, false, false,
    false, false, false, false, false, false, false, false, false, false, false, false, false,
    false, false, false, false, false, false, false, false, false, false, false, false, false,
    false, false, false, false, false, false, false, false, false, false, false, false, false,
    false, false, false, false, false, false,
];

/// Whether the word is this text.
pub fn is_text(word: &[u8], text: &[u8]) -> bool
    ensures { result ≡ same_word word.now text.now }
{
    same_bytes(word, text)
}

/// Whether the word is this byte alone.
pub fn is_byte(word: &[u8], byte: u8) -> bool
    ensures { result ≡ same_word (byte ∷ []) word.now }
{
    match word {
        [only] => byte == *only,
        _ => false,
    }
}

/// Whether the word begins with a bracket behind any number of `!`.
fn is_bracketed(word: &[u8]) -> bool
    ensures { result ≡ is_bracketed word.now }
{
    for byte in word {
        if *byte == b'(' || *byte == b'{' {
            return true;
        }
        if *byte != b'!' {
            return false;
        }
    }
    false
}

/// Whether the word ends with the byte.
fn ends_with(word: &[u8], byte: u8) -> bool
    ensures { result ≡ ends_with byte word.now }
{
    0 < word.len() && word[word.len() - 1] == byte
}

/// Whether the word begins with the byte.
pub fn begins_with(word: &[u8], byte: u8) -> bool
    ensures { result ≡ begins_with byte word.now }
{
    0 < word.len() && word[0] == byte
}

/// Whether the byte stands in names of nets.
fn is_plain(byte: u8) -> bool
    ensures { result ≡ is_plain byte }
{
    PLAIN[byte as usize]
}

/// Whether all bytes stand in names of nets: the bytes of each column of a file are looked at here.
fn are_plain(word: &[u8]) -> bool
    ensures { result ≡ list_all is_plain word.now }
{
    for byte in word {
        if !is_plain(*byte) {
            return false;
        }
    }
    true
}

/// Whether the byte stands in the word.
fn holds(word: &[u8], byte: u8) -> bool
    ensures { result ≡ list_any (λ b. b == byte) word.now }
{
    word.iter().any(|other| *other == byte)
}

/// Whether the word is a lawful name of a net.
#[tactic(auto, using(crate::proofs::Plain::net_named))]
pub fn is_net_name(word: &[u8]) -> bool
    ensures { result ≡ is_net_name word.now }
{
    let some = 0 < word.len();
    let plain = are_plain(word);
    let bracketed = is_bracketed(word);
    let arrow = is_text(word, b"->");
    let stop = begins_with(word, b'.');
    let ends = ends_with(word, b'\\');
    some & plain & !bracketed & !arrow & !stop & !ends
}

/// Whether the word is a lawful name of a model, which besides has no `=`.
#[tactic(auto, unfolding(mv_base::specs::Names::is_model_name))]
pub fn is_model_name(word: &[u8]) -> bool
    ensures { result ≡ is_model_name word.now }
{
    is_net_name(word) && !holds(word, b'=')
}

/// Whether a bracket stands in the word, of either kind.
fn has_bracket(word: &[u8]) -> bool
    ensures { result ≡ list_any (λ b. (b == 40) || (b == 41) || (b == 123) || (b == 125)) word.now }
{
    word.iter().any(|byte| *byte == b'(' || *byte == b')' || *byte == b'{' || *byte == b'}')
}

/// Whether the word is a lawful name of a value, which besides a net's name isn't `-`, doesn't begin with `!` or `=`, and
/// has no bracket.
#[tactic(auto, unfolding(mv_base::specs::Names::is_value_name))]
pub fn is_value_name(word: &[u8]) -> bool
    ensures { result ≡ is_value_name word.now }
{
    is_net_name(word)
        && !is_text(word, b"-")
        && !begins_with(word, b'!')
        && !begins_with(word, b'=')
        && !has_bracket(word)
}
