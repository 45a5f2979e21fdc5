ghost use Rattle.std.specs.Prelude.{◌≡◌, IfOk};
ghost use Rattle.mv_script.specs.Texts.{in_comment, byte_said, said};

use mv_base::{Items, Memory};
use std::alloc::Global;

/// Whether the byte stands in a comment, behind a byte that does or doesn't.
fn in_comment(before: bool, byte: u8) -> bool
    ensures { result ≡ in_comment before byte }
{
    (before || byte == b'#') && byte != b'\n'
}

/// The byte, or a blank in place of one in a comment.
fn byte_said(comment: bool, byte: u8) -> u8
    ensures { result ≡ byte_said comment byte }
{
    if comment { b' ' } else { byte }
}

/// The text with a blank in place of each byte of a comment.
#[tactic(auto, unfolding(crate::specs::Texts::said))]
pub fn said_text(alloc: Global, text: &[u8]) -> Result<Items<u8>, Memory>
    ensures { IfOk result (λ bytes. bytes ≡ said text.now) }
{
    let mut bytes = Items::with_room(alloc, text.len())?;
    let mut comment = false;
    for byte in text {
        comment = in_comment(comment, *byte);
        bytes.push(byte_said(comment, *byte))?;
    }
    Ok(bytes)
}
