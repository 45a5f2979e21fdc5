//! What two cubes of a list have in common, and which such part saves the most where it is taken out.
#![tactic(auto)]

mod children;
mod common;
mod found;
mod groups;
mod meeting;
mod nodes;
mod search;

pub use found::{Found, is_ahead, leading};
pub use search::{Answer, Sought, best_meet, better_meet};
