//! A region of distinct items with numbers: the places at which they stand. It gives places back.
#![tactic(auto)]

mod linked;
mod pool;
mod walk;

pub use linked::Linked;
pub use pool::{Full, Id, Mark, Pool};
