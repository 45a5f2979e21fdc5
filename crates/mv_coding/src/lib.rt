//! How a net of many values gives way to nets of two values that spell its value by a code, and why the network then means the
//! same.
#![tactic(auto)]

mod change;
mod law;
mod verdict;

pub use change::coding_change;
pub use law::coding_laws;
pub use verdict::are_codes;
