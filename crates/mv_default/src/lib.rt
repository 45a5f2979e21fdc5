//! A table with a default in place of the lines of one value, of the one whose lines have the most literals.
#![tactic(auto)]

mod costly;
mod laws;
mod taking;

pub use laws::default_laws;
pub use taking::take_default;
