//! The faults of a network file, of its lines and of the design that they say, and the line that tells each.
#![tactic(auto)]

mod fault;
mod flat;
mod tell;
mod tell_flat;

pub use fault::{ParseFault, Which};
pub use flat::FlatFault;
pub use tell::{put_bare, put_parse_fault, put_word};
pub use tell_flat::put_flat_fault;
