ghost use Rattle.std.specs.Prelude.{◌≡◌, ◌<◌, ◌++◌, length, take, take_while, IfOk, OnOk};
ghost use Rattle.mv_script.specs.Texts.{is_letter, begins, word_at, token_at, tokens_of};

use crate::byte::{is_letter, is_mark};
use mv_base::{Items, Memory, Name};
use std::alloc::Global;

/// A token of a script: a mark, or a word, and the place of its first byte.
#[derive(Drop)]
pub struct Token {
    pub place: u64,
    pub word: Name,
}

/// Whether a token begins at the place.
fn begins(said: &[u8], place: usize) -> bool
    requires { place < length said.now }
    ensures { result ≡ begins said.now place }
{
    let byte = said[place];
    is_mark(byte) || is_letter(byte) && (place == 0 || !is_letter(said[place - 1]))
}

/// The first byte.
fn first_byte(bytes: &[u8]) -> &[u8]
    requires { 0 < length bytes.now }
    ensures { result.now ≡ take 1 bytes.now }
{
    &bytes[..1]
}

/// The letters that the bytes begin with.
#[tactic(auto, using(crate::proofs::Texts::letters_first))]
fn letters(bytes: &[u8]) -> &[u8]
    ensures { result.now ≡ take_while is_letter bytes.now }
{
    let end = bytes.iter().take_while(|byte| is_letter(**byte)).count();
    &bytes[..end]
}

/// The bytes of the token that begins at the place.
fn word_at(said: &[u8], place: usize) -> &[u8]
    requires { place < length said.now }
    ensures { result.now ≡ word_at said.now place }
{
    let bytes = &said[place..];
    if is_mark(said[place]) {
        first_byte(bytes)
    } else {
        letters(bytes)
    }
}

/// Adds the token that begins at the place, if one does.
fn put_token(
    alloc: Global,
    said: &[u8],
    place: usize,
    tokens: &mut Items<Token>,
) -> Result<(), Memory>
    requires { place < length said.now }
    ensures { OnOk result (tokens.new ≡ tokens.old ++ token_at said.now place) }
{
    if !begins(said, place) {
        return Ok(());
    }
    tokens.push(Token {
        place: place as u64,
        word: Name::new(alloc, word_at(said, place))?,
    })?;
    Ok(())
}

/// The tokens of a text whose comments are blanks.
#[tactic(auto, unfolding(crate::specs::Texts::tokens_of))]
pub fn tokens_of(alloc: Global, said: &[u8]) -> Result<Items<Token>, Memory>
    ensures { IfOk result (λ tokens. tokens ≡ tokens_of said.now) }
{
    let mut tokens = Items::new(alloc);
    for place in 0..said.len() {
        put_token(alloc, said, place, &mut tokens)?;
    }
    Ok(tokens)
}
