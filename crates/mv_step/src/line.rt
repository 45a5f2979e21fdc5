ghost use Rattle.std.specs.Prelude.{◌≡◌, Some, None, IfOk, codes, if◌then◌else◌};
ghost use Rattle.mv_base.specs.Names.{same_word};
ghost use Rattle.mv_step.specs.Lines.{line_said};

use crate::set::set_said;
use mv_base::{Items, Memory, Name, PackedSet, same_bytes};
use mv_entry::{BodyLine, BodyLit};
use std::alloc::Global;

/// The line of a body that these words, behind the first, say. They are taken two at a time, and the list has no more room than
/// there are literals.
pub fn line_said(alloc: Global, words: &[Name]) -> Result<Option<BodyLine>, Memory>
    ensures { IfOk result (λ line. line ≡ line_said words.now) }
{
    let mut lits = Items::with_room(alloc, words.len().saturating_sub(2) / 2)?;
    let mut left = words;
    'pairs: while let [net, set, rest @ ..] = left {
        let Some(set) = set_said(set.bytes()) else {
            return Ok(None);
        };
        let set = PackedSet::new(alloc, set)?;
        if rest.is_empty() {
            return Ok(ended_line(net.bytes(), lits, set));
        }
        lits.push(BodyLit {
            net: net.copy()?,
            set,
        })?;
        left = rest;
    }
    Ok(None)
}

/// The line with these literals and this output, if the word before the output is the arrow.
fn ended_line(word: &[u8], lits: Items<BodyLit>, out: PackedSet) -> Option<BodyLine>
    ensures { result
        ≡ (if same_word word.now (codes "->") then Some (record { lits = lits; out = out })
        else None) }
{
    if same_bytes(word, b"->") {
        Some(BodyLine { lits, out })
    } else {
        None
    }
}
