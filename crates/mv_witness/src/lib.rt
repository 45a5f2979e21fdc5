//! Whether the sets of a list have a common point, and the values of variables at one: a witness.
#![tactic(auto)]

mod commons;
mod copies;
mod values;

pub use commons::Commons;
pub use copies::copy_sets;
pub use values::give_values;
