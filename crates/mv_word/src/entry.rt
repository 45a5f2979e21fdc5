ghost use Rattle.std.specs.Prelude.{◌≡◌, ◌≤◌, ◌⊎◌, ◌∷◌, [], Ok, Err, length, drop, IfOk, IfErr, IfSome};
ghost use Rattle.mv_base.specs.declared.limits.TheConstants.{MAX_VALUES as most_values};
ghost use Rattle.mv_lex.specs.Words.{is_bang, opens, front, behind};
ghost use Rattle.mv_word.specs.Entries.{plain_of, base_of, opposites, word_set as said};
ghost use Rattle.mv_word.specs.declared.fault.EntryFault.{EntryFault};

use crate::EntryFault;
use crate::list::{list, place, place_of_byte};
use crate::names::is_byte;
use mv_base::{Memory, Name, PackedSet, Value, ValueSet};
use std::alloc::Global;

/// The set of values that a word says of a column, whose net has the values with these names, in declared order: `-` says
/// all, a name its value, a list in `(..)` or `{..}` the values of its items, which are names and ranges `from-to`, and
/// each `!` in front turns the set to the values that it lacks.
/// Unknown has the word, or the item in its brackets, that says nothing, and Equal the name behind `=`.
#[tactic(auto, using(crate::proofs::Turns::turning))]
pub fn word_set(alloc: Global, values: &[Name], word: &[u8]) -> Result<PackedSet, EntryFault>
    requires { length values.now ≤ most_values }
    ensures ok { IfOk result (λ set. said values.now word.now ≡ Ok set) }
    ensures fault { IfErr result
        (λ f. (f ≡ EntryFault.Memory) ⊎ (said values.now word.now ≡ Err f)) }
{
    let bangs = bangs_in(word);
    let (_bangs, rest) = word.split_at(bangs);
    match base(alloc, values, word, rest) {
        Ok(set) => Ok(turned(alloc, set, values.len(), bangs)?),
        Err(fault) => Err(fault),
    }
}

/// The set that a word of one byte says, as most words of tables do: `-` or a name of a value. None where the word is another one
/// or says no set, and for want of memory.
pub fn byte_set(alloc: Global, values: &[Name], word: &[u8]) -> Option<PackedSet>
    requires { length values.now ≤ most_values }
    ensures { IfSome result (λ set. said values.now word.now ≡ Ok set) }
{
    match word {
        [byte] => set_of_byte(alloc, values, *byte),
        _ => None,
    }
}

/// The set that a byte says as a word, if it says one and isn't one that begins something else than a plain word.
fn set_of_byte(alloc: Global, values: &[Name], byte: u8) -> Option<PackedSet>
    requires { length values.now ≤ most_values }
    ensures { IfSome result (λ set. said values.now (byte ∷ []) ≡ Ok set) }
{
    if is_opening(byte) || byte == b'!' || byte == b'=' {
        return None;
    }
    plain_byte(alloc, values, byte)
}

/// The set that a byte says as a plain word, if it says one.
#[tactic(auto, unfolding(crate::specs::Entries::plain_of))]
fn plain_byte(alloc: Global, values: &[Name], byte: u8) -> Option<PackedSet>
    requires { length values.now ≤ most_values }
    ensures { IfSome result (λ set. plain_of values.now (byte ∷ []) (byte ∷ []) ≡ Ok set) }
{
    let kept = if byte == b'-' {
        PackedSet::full(alloc, values.len() as u16)
    } else {
        PackedSet::one(alloc, Value(place_of_byte(values, byte)? as u16))
    };
    match kept {
        Ok(set) => Some(set),
        Err(_memory) => None,
    }
}

/// How many `!` the word begins with.
fn bangs_in(word: &[u8]) -> usize
    ensures count { result ≡ length (front is_bang word.now) }
    ensures rest { drop result word.now ≡ behind is_bang word.now }
    ensures within { result ≤ length word.now }
{
    for (at, b) in word.iter().enumerate() {
        if *b != b'!' {
            return at;
        }
    }
    word.len()
}

/// The set turned so many times to the values that it lacks, of so many values. Most are not turned at all.
fn turned(alloc: Global, set: PackedSet, count: usize, times: usize) -> Result<PackedSet, Memory>
    requires { count ≤ most_values }
    ensures { IfOk result (λ left. opposites count times (Ok set) ≡ Ok left) }
{
    if times == 0 {
        return Ok(set);
    }
    PackedSet::new(alloc, opposite(set.get(), count, times))
}

/// The set turned so many times.
fn opposite(set: ValueSet, count: usize, times: usize) -> ValueSet
    requires { count ≤ most_values }
    ensures { opposites count times (Ok set) ≡ Ok result }
{
    let all = ValueSet::full(count as u16);
    let mut left = set;
    for _turn in 0..times {
        left = all.minus(left);
    }
    left
}

/// What the word says without the `!` in front, which `rest` has left out.
fn base(alloc: Global, values: &[Name], word: &[u8], rest: &[u8]) -> Result<PackedSet, EntryFault>
    requires { length values.now ≤ most_values }
    ensures ok { IfOk result (λ set. base_of values.now word.now rest.now ≡ Ok set) }
    ensures fault { IfErr result
        (λ f. (f ≡ EntryFault.Memory) ⊎ (base_of values.now word.now rest.now ≡ Err f)) }
{
    match rest {
        [] => Err(EntryFault::Unknown(Name::new(alloc, word)?)),
        [first, inside @ ..] if is_opening(*first) => {
            let set = list(alloc, values, &inside[..inside.len().saturating_sub(1)])?;
            Ok(PackedSet::new(alloc, set)?)
        }
        [first, name @ ..] if *first == b'=' => Err(EntryFault::Equal(Name::new(alloc, name)?)),
        _ => plain(alloc, values, word, rest),
    }
}

/// Whether the byte begins a list in brackets.
fn is_opening(b: u8) -> bool
    ensures { result ≡ opens b }
{
    b == b'(' || b == b'{'
}

/// What a word outside brackets says.
#[tactic(auto, unfolding(crate::specs::Entries::plain_of))]
fn plain(alloc: Global, values: &[Name], word: &[u8], rest: &[u8]) -> Result<PackedSet, EntryFault>
    requires { length values.now ≤ most_values }
    ensures ok { IfOk result (λ set. plain_of values.now word.now rest.now ≡ Ok set) }
    ensures fault { IfErr result
        (λ f. (f ≡ EntryFault.Memory) ⊎ (plain_of values.now word.now rest.now ≡ Err f)) }
{
    if is_byte(rest, b'-') {
        return Ok(PackedSet::full(alloc, values.len() as u16)?);
    }
    match place(values, rest) {
        Some(at) => Ok(PackedSet::one(alloc, Value(at as u16))?),
        None => Err(EntryFault::Unknown(Name::new(alloc, word)?)),
    }
}
