//! Made names, and up to which number nets have all of them.
ghost use Rattle.std.specs.Prelude.{◌≡◌, ℕ, ◌<◌, ◌≤◌, ◌^◌, false, List, Option, decimal, IfOk, IfSome, IsNone};
ghost use Rattle.mv_net.specs.declared.parts.FlatNet.{FlatNet};
ghost use Rattle.mv_net.specs.Fresh.{made_name, is_named, is_taken, is_plain, AreMade};
ghost use Rattle.mv_net.specs.Names.{AreNames};

use crate::FlatNet;
use crate::names::NameIndex;
use mv_base::{Memory, Name};
use std::alloc::Global;
use std::str;

/// The made name with this number: `_m` and the number in decimal.
pub fn made_name(alloc: Global, number: u64) -> Result<Name, Memory>
    ensures { IfOk result (λ name. name ≡ made_name number) }
{
    let text = format!(in alloc; "_m{number}")?;
    Name::new(alloc, text.as_bytes())
}

/// Whether the bytes may be a decimal number without leading zeros or a sign: they begin above `0`, or are `0`.
fn is_plain(digits: &[u8]) -> bool
    ensures { result ≡ is_plain digits.now }
{
    match digits.first() {
        Some(first) => *first > b'0' || (*first == b'0' && digits.len() == 1),
        None => false,
    }
}

/// The number that these bytes write in decimal, without leading zeros.
fn plain_number(digits: &[u8]) -> Option<u32>
    ensures some { IfSome result (λ number. digits.now ≡ decimal number) }
    ensures small { IfSome result (λ number. number < 2 ^ 32) }
    ensures none { IsNone result → (number : ℕ) → number < 2 ^ 32 → digits.now ≡ decimal number
        → ⊥ }
{
    if !is_plain(digits) {
        return None;
    }
    match str::from_utf8(digits) {
        Ok(text) => text.parse::<u32>().ok(),
        Err(_) => None,
    }
}

/// The number of the made name that this is, if it is one.
fn made_number(name: &[u8]) -> Option<u32>
    ensures some { IfSome result (λ number. name.now ≡ made_name number) }
    ensures small { IfSome result (λ number. number < 2 ^ 32) }
    ensures none { IsNone result → (number : ℕ) → number < 2 ^ 32 → name.now ≡ made_name number
        → ⊥ }
{
    match name.strip_prefix(b"_m") {
        Some(digits) => plain_number(digits),
        None => None,
    }
}

/// Whether a net has the made name with this number.
fn is_made(alloc: Global, names: &NameIndex, number: u64) -> Result<bool, Memory>
    ensures { IfOk result
        (λ yes. (nets : List (Option FlatNet)) → AreNames nets names.now
        → yes ≡ is_taken nets number) }
{
    let name = made_name(alloc, number)?;
    Ok(names.number(name.bytes()).is_some())
}

/// The number up to which nets have all made names, sought from this one on. It takes one look-up more than it goes up.
pub fn raised(alloc: Global, names: &NameIndex, made: u32) -> Result<u32, Memory>
    ensures { (nets : List (Option FlatNet)) → AreNames nets names.now → AreMade nets made
        → IfOk result (λ high. AreMade nets high) }
{
    for number in made..u32::MAX {
        if !is_made(alloc, names, u64::from(number) + 1)? {
            return Ok(number);
        }
    }
    Ok(u32::MAX)
}

/// The number up to which nets have all made names without this net: below the net's, if that is one of them.
pub fn lowered(made: u32, net: &Option<FlatNet>) -> u32
    ensures most { result ≤ made }
    ensures others { (k : ℕ) → 0 < k → k ≤ result → is_named (made_name k) net.now ≡ false }
{
    let Some(held) = net else {
        return made;
    };
    match made_number(held.name.bytes()) {
        Some(number) => {
            if 0 < number && number <= made {
                number - 1
            } else {
                made
            }
        }
        None => made,
    }
}
