ghost use Rattle.std.specs.Prelude.{◌≡◌};
ghost use Rattle.mv_blif_line.specs.Commands.{command_of, command_at, is_model, is_end, is_row};

use mv_lex::LexLine;
use mv_line::first_word;
use mv_word::{begins_with, is_text};

/// What a line is.
#[derive(Clone, Copy, Debug, PartialEq, Eq)]
pub enum Command {
    Model,
    Inputs,
    Outputs,
    Names,
    Latch,
    Row,
    End,
    Unknown,
}

/// What a line with this first word is.
#[tactic(auto, unfolding(crate::specs::Commands::command_of))]
fn command_of(word: &[u8]) -> Command
    ensures { result ≡ command_of word.now }
{
    if !begins_with(word, b'.') {
        Command::Row
    } else if is_text(word, b".model") {
        Command::Model
    } else if is_text(word, b".inputs") {
        Command::Inputs
    } else if is_text(word, b".outputs") {
        Command::Outputs
    } else if is_text(word, b".names") {
        Command::Names
    } else if is_text(word, b".latch") {
        Command::Latch
    } else if is_text(word, b".end") {
        Command::End
    } else {
        Command::Unknown
    }
}

/// What a line is.
pub fn command_at(line: &LexLine) -> Command
    ensures { result ≡ command_at line.now }
{
    command_of(first_word(line))
}

/// Whether the line begins the model.
pub fn is_model(command: Command) -> bool
    ensures { result ≡ is_model command }
{
    matches!(command, Command::Model)
}

/// Whether the line ends the model.
pub fn is_end(command: Command) -> bool
    ensures { result ≡ is_end command }
{
    matches!(command, Command::End)
}

/// Whether the line is a row.
pub fn is_row(command: Command) -> bool
    ensures { result ≡ is_row command }
{
    matches!(command, Command::Row)
}
