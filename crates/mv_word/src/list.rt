ghost use Rattle.std.specs.Prelude.{◌≡◌, ◌≤◌, ◌<◌, ◌⊎◌, ◌+◌, Ok, Err, Some, true, false, length, take, drop, slice_index, ◌∷◌, [], IfOk, IfErr, IfSome, IsSome, IsNone};
ghost use Rattle.mv_base.specs.Names.{place_of};
ghost use Rattle.mv_base.specs.declared.limits.TheConstants.{MAX_VALUES as most_values};
ghost use Rattle.mv_word.specs.Entries.{span as span_set, parts_range, range_of, item_of, is_inside, list_of};
ghost use Rattle.mv_lex.specs.Words.{front};
ghost use Rattle.mv_word.specs.declared.fault.EntryFault.{EntryFault};

use crate::EntryFault;
use crate::names::is_byte;
use mv_base::{Name, Value, ValueSet, same_bytes};
use std::alloc::Global;

/// The place of a value's name among those of its net.
pub fn place(values: &[Name], word: &[u8]) -> Option<usize>
    ensures place { result ≡ place_of word.now values.now }
    ensures within { IfSome result (λ n. n < length values.now) }
{
    match word {
        [byte] => place_of_byte(values, *byte),
        _ => values
            .iter()
            .position(|value| same_bytes(word, value.bytes())),
    }
}

/// The place of the value whose name is this byte: most names of values have one.
pub fn place_of_byte(values: &[Name], byte: u8) -> Option<usize>
    ensures place { result ≡ place_of (byte ∷ []) values.now }
    ensures within { IfSome result (λ n. n < length values.now) }
{
    values.iter().position(|value| is_byte(value.bytes(), byte))
}

/// The values from one place to another, or none where they run backwards.
#[tactic(auto, unfolding(crate::specs::Entries::span))]
fn span(first: usize, last: usize) -> Option<ValueSet>
    requires first { first < most_values }
    requires last { last < most_values }
    ensures { result ≡ span_set first last }
{
    if last < first {
        return None;
    }
    let below = ValueSet::full(first as u16);
    Some(ValueSet::full(last as u16 + 1).minus(below))
}

/// The places of the values on both sides of a hyphen.
#[derive(Clone, Copy)]
struct Ends {
    first: usize,
    last: usize,
}

/// The values on both sides of this byte, if it is a hyphen and both sides are names of values.
fn ends_at(values: &[Name], word: &[u8], at: usize) -> Option<Ends>
    requires { at < length word.now }
    ensures none { IsNone result
        → parts_range values.now (take at word.now) (slice_index word.now at) (drop
        (at + 1) word.now) ≡ false }
    ensures test { IsSome result
        → parts_range values.now (take at word.now) (slice_index word.now at) (drop
        (at + 1) word.now) ≡ true }
    ensures first { IfSome result (λ e. place_of (take at word.now) values.now ≡ Some e.first) }
    ensures last { IfSome result (λ e. place_of (drop (at + 1) word.now) values.now ≡ Some e.last) }
    ensures within { IfSome result
        (λ e. (e.first < length values.now) × (e.last < length values.now)) }
{
    if word[at] != b'-' {
        return None;
    }
    let (before, _from) = word.split_at(at);
    let (_up_to, behind) = word.split_at(at + 1);
    let first = place(values, before)?;
    let last = place(values, behind)?;
    Some(Ends { first, last })
}

/// The values of a range.
#[tactic(auto, unfolding(crate::specs::Entries::range_of))]
fn range(values: &[Name], word: &[u8]) -> Option<ValueSet>
    requires { length values.now ≤ most_values }
    ensures { result ≡ range_of values.now word.now }
{
    for at in 0..word.len() {
        if let Some(found) = ends_at(values, word, at) {
            return span(found.first, found.last);
        }
    }
    None
}

/// The values of an item in brackets.
#[tactic(auto, unfolding(crate::specs::Entries::item_of))]
fn item(values: &[Name], word: &[u8]) -> Option<ValueSet>
    requires { length values.now ≤ most_values }
    ensures { result ≡ item_of values.now word.now }
{
    match place(values, word) {
        Some(at) => Some(ValueSet::one(Value(at as u16))),
        None => range(values, word),
    }
}

/// How many bytes stand before the first comma.
fn before_comma(bytes: &[u8]) -> usize
    ensures value { result ≡ length (front is_inside bytes.now) }
    ensures within { result ≤ length bytes.now }
{
    for (at, b) in bytes.iter().enumerate() {
        if *b == b',' {
            return at;
        }
    }
    bytes.len()
}

/// The values of all items between commas.
pub fn list(alloc: Global, values: &[Name], bytes: &[u8]) -> Result<ValueSet, EntryFault>
    requires { length values.now ≤ most_values }
    ensures ok { IfOk result (λ set. list_of values.now bytes.now ≡ Ok set) }
    ensures fault { IfErr result
        (λ f. (f ≡ EntryFault.Memory) ⊎ (list_of values.now bytes.now ≡ Err f)) }
{
    let mut set = ValueSet::empty();
    let mut from = 0;
    'items: loop {
        let (_done, rest) = bytes.split_at(from);
        let size = before_comma(rest);
        let (word, _more) = rest.split_at(size);
        let Some(more) = item(values, word) else {
            return Err(EntryFault::Unknown(Name::new(alloc, word)?));
        };
        set = set.join(more);
        if rest.len() <= size {
            return Ok(set);
        }
        from += size + 1;
    }
}
