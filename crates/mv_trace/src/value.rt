ghost use Rattle.std.specs.Prelude.{◌≡◌, ◌<◌, IsTrue, IfSome, length, map, decimal};
ghost use Rattle.std.specs.List.{range_with_len};
ghost use Rattle.mv_base.specs.Names.{place_of};
ghost use Rattle.mv_net.specs.Index.{is_held};
ghost use Rattle.mv_trace.specs.Runs.{value_said};

use itoa::Buffer;
use mv_base::{Name, NetId, Value, same_bytes};
use mv_lex::decimal;
use mv_net::Network;

/// The numbers below the most values of a net have no more digits.
const MAX_DIGITS: usize = 5;

/// The number below the count that the word is, as a file spells it.
fn number(word: &[u8], count: u16) -> Option<u16>
    ensures { result ≡ place_of word.now (map decimal (range_with_len 0 count)) }
{
    if word.len() > MAX_DIGITS {
        return None;
    }
    let number = decimal(word)?;
    if number >= u128::from(count) {
        return None;
    }
    let mut buffer = Buffer::new();
    if !same_bytes(word, buffer.format(number as u16).as_bytes()) {
        return None;
    }
    Some(number as u16)
}

/// The place of a value's name among those of its net.
fn place(values: &[Name], word: &[u8]) -> Option<usize>
    ensures place { result ≡ place_of word.now values.now }
    ensures within { IfSome result (λ at. at < length values.now) }
{
    values
        .iter()
        .position(|value| same_bytes(word, value.bytes()))
}

/// The position of the value of a held net that the word names, if it names one. It takes no memory.
pub fn value_of(net: &Network, n: NetId, word: &[u8]) -> Option<u16>
    requires { IsTrue (is_held net.now.nets n.0) }
    ensures { result ≡ value_said net.now.nets n word.now }
{
    net.well_formed();
    let names = net.value_names(n);
    if names.is_empty() {
        return number(word, net.values(n));
    }
    match place(names, word) {
        Some(at) => Some(at as u16),
        None => None,
    }
}
