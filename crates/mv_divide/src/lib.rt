//! Weak division of covers and tables, by which common divisors are taken out.
#![tactic(auto)]

mod divided;
mod dividend;
mod join;
mod number;
mod part;
mod places;
mod quotient;

pub use divided::divide;
pub use dividend::Dividend;
pub use part::{Part, parts};
pub use quotient::{Quotient, quotients};
