ghost use Rattle.std.specs.Prelude.{◌≡◌, ◌++◌, IfOk, OnOk};
ghost use Rattle.mv_decl.specs.Line.{is_comma, word_or_none, pieces_of, commas_apart};

use mv_base::{Items, Memory, Name};
use mv_word::is_text;
use std::alloc::Global;

/// Whether the word is a comma.
pub fn is_comma(word: &Name) -> bool
    ensures { result ≡ is_comma word.now }
{
    is_text(word.bytes(), b",")
}

/// The words with each comma as a word of its own.
#[tactic(auto, unfolding(crate::specs::Line::commas_apart))]
pub fn apart(alloc: Global, words: &[Name]) -> Result<Items<Name>, Memory>
    ensures { IfOk result (λ pieces. pieces ≡ commas_apart words.now) }
{
    let mut pieces = Items::new(alloc);
    for word in words {
        put_pieces(alloc, word, &mut pieces)?;
    }
    Ok(pieces)
}

/// Adds the word, cut at its commas.
fn put_pieces(alloc: Global, word: &Name, pieces: &mut Items<Name>) -> Result<(), Memory>
    ensures { OnOk result (pieces.new ≡ pieces.old ++ pieces_of word.now) }
{
    let mut front = Vec::new(alloc);
    let bytes = word.bytes();
    for byte in bytes {
        if *byte == b',' {
            put_word(alloc, front.as_slice(), pieces)?;
            pieces.push(Name::new(alloc, b",")?)?;
            front.clear();
        } else {
            front.push(*byte)?;
        }
    }
    put_word(alloc, front.as_slice(), pieces)
}

/// Adds the word, unless it is empty.
fn put_word(alloc: Global, word: &[u8], pieces: &mut Items<Name>) -> Result<(), Memory>
    ensures { OnOk result (pieces.new ≡ pieces.old ++ word_or_none word.now) }
{
    if word.is_empty() {
        return Ok(());
    }
    pieces.push(Name::new(alloc, word)?)?;
    Ok(())
}
