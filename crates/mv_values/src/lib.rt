//! The command `default`: a table's lines of one value give way to a default where that saves literals.
#![tactic(auto)]

mod defaulting;
mod defaults;
mod laws;

pub use defaults::choose_default;
pub use laws::default_laws;
pub use mv_pass::Stop;
