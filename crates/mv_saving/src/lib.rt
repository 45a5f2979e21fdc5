//! What taking a common divisor out of covers saves.
#![tactic(auto)]

mod law;
mod saved;

pub use law::{covers_law, saving_law};
pub use saved::{literals, saving};
