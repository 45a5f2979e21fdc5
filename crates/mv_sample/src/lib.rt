//! Small networks and covers from a text on one line, and what a network answers as a text, for the crates of tests above.
#![tactic(auto)]

mod answer;
mod text;

pub use answer::{put_nets, said_of};
pub use text::{cover, lines, network};
