ghost use Rattle.std.specs.Prelude.{◌≡◌};
ghost use Rattle.std.specs.List.{list_all};
ghost use Rattle.mv_script.specs.Texts.{is_letter};
ghost use Rattle.mv_script.specs.Reading.{fault, Answers, waiting, ended, begun, is_name, plain_command, item_waits};
ghost use Rattle.mv_script.specs.Reading.{close_turn, item_turn, name_turn, down_turn, up_turn, times_turn, brace_turn, turn_at};

use crate::byte::is_letter;
use crate::number::number_from;
use crate::part::{Braces, Part, PartKind};
use crate::token::Token;
use crate::{FaultKind, ScriptFault, TextFault};
use mv_base::MAX_SCRIPT_BRACES;
use mv_entry::Command;

/// The greatest number of steps that a window goes down or up.
const MAX_STEPS: u64 = 8;
/// The most runs of `repeat`.
const MAX_TIMES: u64 = 1_000;

/// What has to stand next in a script.
#[derive(Clone, Copy, Debug, PartialEq, Eq)]
pub enum Waits {
    /// Nothing waits: an item may begin.
    Item,
    /// The name behind `collapse`.
    Name,
    /// The first number behind `simplify`.
    Down,
    /// The second number behind `simplify`, of which this was the first.
    Up(u8),
    /// The number behind `repeat`.
    Times,
    /// The `{` of an item.
    Open(Braces),
}

/// How far the reading has come: what waits, the place where the part that waits began, and how many braces are open.
#[derive(Clone, Copy, Debug, PartialEq, Eq)]
pub struct State {
    pub waits: Waits,
    pub place: u64,
    pub depth: u8,
}

/// What a token does: how far the reading has come behind it, and the part that ends with it, if one does.
#[derive(Drop)]
pub struct Turn {
    pub state: State,
    pub part: Option<Part>,
}

/// Something waits behind the token, or nothing does.
fn waiting(waits: Waits, place: u64, depth: u8) -> Turn
    ensures { result ≡ waiting waits place depth }
{
    Turn {
        state: State {
            waits,
            place,
            depth,
        },
        part: None,
    }
}

/// A part ends with the token.
fn ended(kind: PartKind, place: u64, depth: u8) -> Turn
    ensures { result ≡ ended kind place depth }
{
    Turn {
        state: State {
            waits: Waits::Item,
            place,
            depth,
        },
        part: Some(Part { place, kind }),
    }
}

/// A fault at the place.
pub fn fault(kind: FaultKind, place: u64) -> ScriptFault
    ensures { result ≡ ScriptFault.Text (fault kind place) }
{
    ScriptFault::Text(TextFault { kind, place })
}

/// The command without operands that the word is.
#[tactic(auto, unfolding(crate::specs::Reading::plain_command))]
fn plain_command(word: &[u8]) -> Option<Command>
    ensures { result ≡ plain_command word.now }
{
    if word == b"drop".as_slice() {
        return Some(Command::Drop);
    }
    if word == b"sweep".as_slice() {
        return Some(Command::Sweep);
    }
    if word == b"eliminate".as_slice() {
        return Some(Command::Eliminate);
    }
    if word == b"kernel".as_slice() {
        return Some(Command::Kernel);
    }
    if word == b"cube".as_slice() {
        return Some(Command::Cube);
    }
    if word == b"merge".as_slice() {
        return Some(Command::Merge);
    }
    if word == b"default".as_slice() {
        return Some(Command::Default);
    }
    if word == b"determinize".as_slice() {
        return Some(Command::Determinize);
    }
    if word == b"encode".as_slice() {
        return Some(Command::Encode);
    }
    if word == b"fill".as_slice() {
        return Some(Command::Fill);
    }
    None
}

/// What has to stand behind the word, if it is the first of an item with more of them.
#[tactic(auto, unfolding(crate::specs::Reading::item_waits))]
fn item_waits(word: &[u8]) -> Option<Waits>
    ensures { result ≡ item_waits word.now }
{
    if word == b"collapse".as_slice() {
        return Some(Waits::Name);
    }
    if word == b"simplify".as_slice() {
        return Some(Waits::Down);
    }
    if word == b"repeat".as_slice() {
        return Some(Waits::Times);
    }
    if word == b"better".as_slice() {
        return Some(Waits::Open(Braces::Better));
    }
    None
}

/// A word where an item may begin.
fn begin_item(word: &[u8], place: u64, depth: u8) -> Result<Turn, ScriptFault>
    ensures { Answers result (begun (item_waits word.now) (plain_command word.now) place depth) }
{
    if let Some(waits) = item_waits(word) {
        return Ok(waiting(waits, place, depth));
    }
    match plain_command(word) {
        Some(command) => Ok(ended(PartKind::Do(command), place, depth)),
        None => Err(fault(FaultKind::UnknownWord, place)),
    }
}

/// A `}` where an item may begin.
fn close(place: u64, depth: u8) -> Result<Turn, ScriptFault>
    ensures { Answers result (close_turn place depth) }
{
    if depth == 0 {
        return Err(fault(FaultKind::Brace, place));
    }
    Ok(ended(PartKind::Close, place, depth - 1))
}

/// A token where an item may begin.
#[tactic(auto, unfolding(crate::specs::Reading::item_turn))]
fn read_item(token: &Token, depth: u8) -> Result<Turn, ScriptFault>
    ensures { Answers result (item_turn depth token.now) }
{
    let word = token.word.bytes();
    if word == b";".as_slice() {
        return Ok(waiting(Waits::Item, token.place, depth));
    }
    if word == b"}".as_slice() {
        return close(token.place, depth);
    }
    if word == b"{".as_slice() {
        return Err(fault(FaultKind::Brace, token.place));
    }
    begin_item(word, token.place, depth)
}

/// Whether all of these bytes may stand in a word.
fn are_letters(word: &[u8]) -> bool
    ensures { result ≡ list_all is_letter word.now }
{
    word.iter().all(|byte| is_letter(*byte))
}

/// Whether the word may be the name of a net.
fn is_name(word: &[u8]) -> bool
    ensures { result ≡ is_name word.now }
{
    0 < word.len() && are_letters(word)
}

/// A token where a name has to stand.
#[tactic(auto, unfolding(crate::specs::Reading::name_turn))]
fn read_name(token: &Token, place: u64, depth: u8) -> Result<Turn, ScriptFault>
    ensures { Answers result (name_turn place depth token.now) }
{
    if !is_name(token.word.bytes()) {
        return Err(fault(FaultKind::Missing, token.place));
    }
    let name = token.word.copy()?;
    Ok(ended(PartKind::Do(Command::Collapse(name)), place, depth))
}

/// A token where the first number of `simplify` has to stand.
#[tactic(auto, unfolding(crate::specs::Reading::down_turn))]
fn read_down(token: &Token, place: u64, depth: u8) -> Result<Turn, ScriptFault>
    ensures { Answers result (down_turn place depth token.now) }
{
    match number_from(token.word.bytes(), 0, MAX_STEPS) {
        Ok(down) => Ok(waiting(Waits::Up(down as u8), place, depth)),
        Err(kind) => Err(fault(kind, token.place)),
    }
}

/// A token where the second number of `simplify` has to stand, behind the first one.
#[tactic(auto, unfolding(crate::specs::Reading::up_turn))]
fn read_up(down: u8, token: &Token, place: u64, depth: u8) -> Result<Turn, ScriptFault>
    ensures { Answers result (up_turn down place depth token.now) }
{
    match number_from(token.word.bytes(), 0, MAX_STEPS) {
        Ok(up) => Ok(ended(
            PartKind::Do(Command::Simplify(down, up as u8)),
            place,
            depth,
        )),
        Err(kind) => Err(fault(kind, token.place)),
    }
}

/// A token where the number of `repeat` has to stand.
#[tactic(auto, unfolding(crate::specs::Reading::times_turn))]
fn read_times(token: &Token, place: u64, depth: u8) -> Result<Turn, ScriptFault>
    ensures { Answers result (times_turn place depth token.now) }
{
    match number_from(token.word.bytes(), 1, MAX_TIMES) {
        Ok(times) => Ok(waiting(Waits::Open(Braces::Repeat(times as u16)), place, depth)),
        Err(kind) => Err(fault(kind, token.place)),
    }
}

/// A token where a `{` has to stand.
#[tactic(auto, unfolding(crate::specs::Reading::brace_turn))]
fn read_brace(braces: Braces, token: &Token, place: u64, depth: u8) -> Result<Turn, ScriptFault>
    ensures { Answers result (brace_turn braces place depth token.now) }
{
    if token.word.bytes() != b"{".as_slice() {
        return Err(fault(FaultKind::Brace, token.place));
    }
    if depth as u64 >= MAX_SCRIPT_BRACES {
        return Err(fault(FaultKind::TooDeep, token.place));
    }
    Ok(ended(PartKind::Open(braces), place, depth + 1))
}

/// What the token does behind those before it, or the fault that it is.
pub fn read_token(state: State, token: &Token) -> Result<Turn, ScriptFault>
    ensures { Answers result (turn_at state token.now) }
{
    let State {
        waits,
        place,
        depth,
    } = state;
    match waits {
        Waits::Item => read_item(token, depth),
        Waits::Name => read_name(token, place, depth),
        Waits::Down => read_down(token, place, depth),
        Waits::Up(down) => read_up(down, token, place, depth),
        Waits::Times => read_times(token, place, depth),
        Waits::Open(braces) => read_brace(braces, token, place, depth),
    }
}
