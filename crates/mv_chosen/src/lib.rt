//! What a network is whose tables take one of their values at each point: laws alone.
#![tactic(auto)]

mod laws;

pub use laws::{binary_laws, chosen_laws, one_choice_laws, reset_laws};
