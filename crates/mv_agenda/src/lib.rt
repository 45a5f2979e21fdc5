//! The nets that are still to be looked at, of which the least comes first.
#![tactic(auto)]

mod agenda;
mod near;

pub use agenda::Agenda;
pub use near::put_near;
