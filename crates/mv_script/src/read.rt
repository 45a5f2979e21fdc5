ghost use Rattle.std.specs.Prelude.{◌≡◌, true, Err, IfOk, List, Result, position};
ghost use Rattle.mv_script.specs.declared.part.Part.{Part as PartValue};
ghost use Rattle.mv_script.specs.declared.fault.TextFault.{TextFault};
ghost use Rattle.mv_script.specs.Commands.{are_lawful};
ghost use Rattle.mv_script.specs.Faults.{IsFirstFault, earlier, parts_in};
ghost use Rattle.mv_script.specs.Grammar.{IsScript};
ghost use Rattle.mv_script.specs.Reading.{Answers, fault};
ghost use Rattle.mv_script.specs.Scripts.{items_of};
ghost use Rattle.mv_script.specs.Texts.{is_strange};

use crate::building::script_of;
use crate::byte::is_strange;
use crate::count::too_many;
use crate::outermost::outermost;
use crate::part::Part;
use crate::reading::parts_from;
use crate::said::said_text;
use crate::token::tokens_of;
use crate::turn::fault;
use crate::{FaultKind, Script, ScriptFault};
use mv_base::{Items, MAX_SCRIPT_BYTES};
use std::alloc::Global;

/// The place of the first byte that has no place outside comments.
fn strange_place(said: &[u8]) -> Option<usize>
    ensures { result ≡ position is_strange said.now }
{
    said.iter().position(|byte| is_strange(*byte))
}

/// The earlier one of a strange byte and a fault of the tokens.
fn earlier(
    strange: Option<usize>,
    parts: Result<Items<Part>, ScriptFault>,
) -> Result<Items<Part>, ScriptFault>
    ensures { (told : Result (List PartValue) TextFault) → Answers parts told
        → Answers result (earlier strange told) }
{
    let Some(place) = strange else {
        return parts;
    };
    match parts {
        Err(ScriptFault::Text(other)) if other.place < place as u64 => Err(ScriptFault::Text(
            other,
        )),
        Err(ScriptFault::Memory) => Err(ScriptFault::Memory),
        _ => Err(fault(FaultKind::UnknownWord, place as u64)),
    }
}

/// The parts of what is said, or the first fault that its bytes and its tokens tell.
#[tactic(auto, unfolding(crate::specs::Faults::parts_in))]
fn parts_in(alloc: Global, said: &[u8]) -> Result<Items<Part>, ScriptFault>
    ensures { Answers result (parts_in said.now) }
{
    let tokens = tokens_of(alloc, said)?;
    let parts = parts_from(alloc, tokens.as_slice(), said.len() as u64);
    earlier(strange_place(said), parts)
}

/// The script that the text says, or its first fault.
#[tactic(auto, using(crate::proofs::Judging::judges))]
pub fn read_script(alloc: Global, text: &[u8]) -> Result<Script, ScriptFault>
    ensures script { IfOk result (λ script. IsScript text.now (items_of script)) }
    ensures lawful { IfOk result (λ script. are_lawful (items_of script) ≡ true) }
    ensures fault { (f : TextFault) → result ≡ Err (ScriptFault.Text f) → IsFirstFault text.now f }
{
    if text.len() as u64 > MAX_SCRIPT_BYTES {
        return Err(fault(FaultKind::TooLong, MAX_SCRIPT_BYTES));
    }
    let said = said_text(alloc, text)?;
    let parts = match parts_in(alloc, said.as_slice()) {
        Ok(parts) => parts,
        Err(stop) => return Err(stop),
    };
    let places = outermost(alloc, parts.as_slice())?;
    let script = script_of(alloc, parts)?;
    match too_many(alloc, &script, places.as_slice())? {
        None => Ok(script),
        Some(place) => Err(fault(FaultKind::TooMany, place)),
    }
}
