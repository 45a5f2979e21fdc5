//! The text of a network as BLIF: the lines of its root, inputs and outputs, its latches with what is said of them, and
//! tables that say one value for each point, appended to a sink piece by piece.
#![tactic(auto)]

mod latches;
mod network;
mod planes;
mod rows;
mod tables;

pub use network::write_blif;
