ghost use Rattle.std.specs.Prelude.{◌≡◌, ◌++◌, [], OnOk};
ghost use Rattle.mv_script.specs.Reading.{Answers, before, end_fault, parts_from, at_start};

use crate::part::Part;
use crate::token::Token;
use crate::turn::{State, Waits, fault, read_token};
use crate::{FaultKind, ScriptFault};
use mv_base::{Items, Memory};
use std::alloc::Global;

/// What is wrong where the text ends, if something is.
fn end_fault(state: State) -> Option<FaultKind>
    ensures { result ≡ end_fault state.waits state.depth }
{
    match state.waits {
        Waits::Item => {
            if state.depth == 0 {
                None
            } else {
                Some(FaultKind::Brace)
            }
        }
        Waits::Open(_) => Some(FaultKind::Brace),
        _ => Some(FaultKind::Missing),
    }
}

/// Adds the part, if there is one.
fn put_part(part: Option<Part>, parts: &mut Items<Part>) -> Result<(), Memory>
    ensures { OnOk result (parts.new ≡ parts.old ++ before part []) }
{
    if let Some(part) = part {
        parts.push(part)?;
    }
    Ok(())
}

/// The parts of a script's tokens, or the first fault that can be told from them. The text ends at the place.
#[tactic(auto, using(crate::proofs::Turns::reads))]
pub fn parts_from(alloc: Global, tokens: &[Token], end: u64) -> Result<Items<Part>, ScriptFault>
    ensures { Answers result (parts_from end tokens.now at_start) }
{
    let mut parts = Items::new(alloc);
    let mut state = State {
        waits: Waits::Item,
        place: 0,
        depth: 0,
    };
    for token in tokens {
        match read_token(state, token) {
            Ok(turn) => {
                put_part(turn.part, &mut parts)?;
                state = turn.state;
            }
            Err(stop) => return Err(stop),
        }
    }
    match end_fault(state) {
        None => Ok(parts),
        Some(kind) => Err(fault(kind, end)),
    }
}
