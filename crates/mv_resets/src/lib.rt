//! A model with a net for each reset value: its reset tables as tables of nets of their own. A network has such nets.
#![tactic(auto)]

mod laws;
mod resets;

pub use laws::reset_laws;
pub use resets::{reset_name, with_reset_nets};
