//! Whether a network has an assignment in which some nets have given values, and which.
#![tactic(auto)]

mod asked;
mod backward;
mod finding;
mod first;
mod forward;
mod known;
mod marks;
mod parts;
mod search;
mod solver;
mod spread;
mod way;

pub use asked::Asked;
pub use solver::Solver;
