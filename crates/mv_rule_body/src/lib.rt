//! A table as the body of a rule: its literals by the names of their nets.
#![tactic(auto)]

mod body;
mod law;

pub use body::body_of;
pub use law::body_laws;
