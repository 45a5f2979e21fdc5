ghost use Rattle.std.specs.Prelude.{◌≡◌, ◌<◌, IfSome};
ghost use Rattle.std.specs.List.{slice_split};
ghost use Rattle.mv_base.specs.declared.limits.TheConstants.{MAX_VALUES as most_values};
ghost use Rattle.mv_step.specs.Sets.{is_comma, value_said, values_said, is_in_brackets, set_said};

use crate::number::number_below;
use mv_base::{MAX_VALUES, Value, ValueSet};

/// The value that the word says.
#[tactic(auto, unfolding(crate::specs::Sets::value_said))]
fn value_said(word: &[u8]) -> Option<u16>
    ensures value { result ≡ value_said word.now }
    ensures within { IfSome result (λ v. v < most_values) }
{
    number_below(word, u32::from(MAX_VALUES))
}

/// The set of the values that are said between commas.
fn values_said(bytes: &[u8]) -> Option<ValueSet>
    ensures { result ≡ values_said (slice_split is_comma bytes.now) }
{
    let mut set = ValueSet::empty();
    for word in bytes.split(|byte| *byte == b',') {
        let value = value_said(word)?;
        set = set.join(ValueSet::one(Value(value)));
    }
    Some(set)
}

/// Whether the word stands in brackets.
fn is_in_brackets(word: &[u8]) -> bool
    ensures { result ≡ is_in_brackets word.now }
{
    !word.is_empty() && word[0] == b'(' && word[word.len() - 1] == b')'
}

/// The set that the word says: a value, or values in brackets, in any order.
#[tactic(auto, using(crate::proofs::Bracketed::bracketed))]
pub fn set_said(word: &[u8]) -> Option<ValueSet>
    ensures { result ≡ set_said word.now }
{
    if is_in_brackets(word) {
        return values_said(&word[1..word.len() - 1]);
    }
    Some(ValueSet::one(Value(value_said(word)?)))
}
