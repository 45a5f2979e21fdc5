//! What a run notes: the rules that change a network, notes on them, their text, and the journal that takes them.
#![tactic(auto)]

mod encode_text;
mod fault;
mod journal;
mod note;
mod note_text;
mod page;
mod rule;
mod rule_text;
mod set_text;
mod words;

pub use fault::RuleFault;
pub use journal::{Journal, Tally};
pub use note::{Command, Note, Why};
pub use note_text::put_note;
pub use rule::{Body, BodyLine, BodyLit, Code, Rule};
pub use rule_text::put_rule;
