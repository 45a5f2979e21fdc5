//! What the text of a network reads as: a design that means what the network means.
#![tactic(auto)]

mod back;

pub use back::reads_back;
