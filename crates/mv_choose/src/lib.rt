//! The command `determinize`: a table that isn't plainly deterministic gives way to one that is.
#![tactic(auto)]

mod choices;
mod choosing;
mod laws;

pub use choices::determinize;
pub use laws::determinize_laws;
pub use mv_pass::Stop;
