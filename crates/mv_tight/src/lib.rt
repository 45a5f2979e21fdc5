//! The table of a net made tight: its lines grow within the flexibility, and those go that the others can do without.
#![tactic(auto)]

mod growing;
mod laws;
mod making;

pub use laws::grown_laws;
pub use making::make_tight;
