ghost use Rattle.std.specs.Prelude.{◌≡◌};
ghost use Rattle.mv_parse.specs.Commands.{command_of, command_at, is_table_word, is_reset_word, keeps_table, is_model, is_end, is_root, is_table};

use mv_lex::LexLine;
use mv_line::first_word;
use mv_table::is_default_word;
use mv_word::{begins_with, is_text};

/// What a line is.
#[derive(Clone, Copy, Debug, PartialEq, Eq)]
pub enum Command {
    Model,
    Inputs,
    Outputs,
    Mv,
    Table,
    Latch,
    Reset,
    Default,
    Row,
    End,
    Root,
    Instance,
    Unknown,
}

/// Whether the word says that its line begins a table.
fn is_table_word(word: &[u8]) -> bool
    ensures { result ≡ is_table_word word.now }
{
    is_text(word, b".table") || is_text(word, b".names")
}

/// Whether the word says that its line begins a reset table.
fn is_reset_word(word: &[u8]) -> bool
    ensures { result ≡ is_reset_word word.now }
{
    is_text(word, b".reset") || is_text(word, b".r")
}

/// What a line with this first word is.
#[tactic(auto, unfolding(crate::specs::Commands::command_of))]
fn command_of(word: &[u8]) -> Command
    ensures { result ≡ command_of word.now }
{
    if !begins_with(word, b'.') {
        Command::Row
    } else if is_text(word, b".model") {
        Command::Model
    } else if is_text(word, b".inputs") {
        Command::Inputs
    } else if is_text(word, b".outputs") {
        Command::Outputs
    } else if is_text(word, b".mv") {
        Command::Mv
    } else if is_table_word(word) {
        Command::Table
    } else if is_default_word(word) {
        Command::Default
    } else if is_text(word, b".end") {
        Command::End
    } else if is_text(word, b".latch") {
        Command::Latch
    } else if is_reset_word(word) {
        Command::Reset
    } else if is_text(word, b".root") {
        Command::Root
    } else if is_text(word, b".subckt") {
        Command::Instance
    } else {
        Command::Unknown
    }
}

/// What a line is.
pub fn command_at(line: &LexLine) -> Command
    ensures { result ≡ command_at line.now }
{
    command_of(first_word(line))
}

/// Whether the table that is open stays open behind the line.
pub fn keeps_table(command: Command) -> bool
    ensures { result ≡ keeps_table command }
{
    matches!(command, Command::Row | Command::Default)
}

/// Whether the line begins a model.
pub fn is_model(command: Command) -> bool
    ensures { result ≡ is_model command }
{
    matches!(command, Command::Model)
}

/// Whether the line names the root.
pub fn is_root(command: Command) -> bool
    ensures { result ≡ is_root command }
{
    matches!(command, Command::Root)
}

/// Whether the line ends its model.
pub fn is_end(command: Command) -> bool
    ensures { result ≡ is_end command }
{
    matches!(command, Command::End)
}

/// Whether the line begins a table or a reset table.
pub fn is_table(command: Command) -> bool
    ensures { result ≡ is_table command }
{
    matches!(command, Command::Table | Command::Reset)
}
