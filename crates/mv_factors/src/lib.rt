//! Lists of sets of points as diagrams over one pool, and the elimination of variables from their meet.
#![tactic(auto)]

mod elimination;
mod factors;
mod function;
mod inner;
mod join;
mod seen;

pub use elimination::Elimination;
pub use factors::{Factors, MAX_RECLAIMS};
pub use inner::Inner;
