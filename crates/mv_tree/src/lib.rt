//! The instances of a design: its tree, what it means, and the one model over all nets that it is.
#![tactic(auto)]

mod laws;

pub use laws::{lawful, same_meaning};
