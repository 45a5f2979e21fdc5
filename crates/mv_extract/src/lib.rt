//! The commands `kernel` and `cube`: the common divisor that saves most is taken out of all tables, again and again.
#![tactic(auto)]

mod adding;
mod dividing;
mod extracting;
mod kind;
mod noting;

pub use extracting::{cube, kernel};
pub use mv_pass::Stop;
