//! What rules leave of a network that can be written as BLIF: laws alone.
#![tactic(auto)]

mod laws;

pub use laws::{blif_rules, nothing_is_free};
