//! What lines of network files have in common, whatever their format: their words, and names of ports.
#![tactic(auto)]

mod ports;
mod words;

pub use ports::add_ports;
pub use words::{behind_first, first_word};
