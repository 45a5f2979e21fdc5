//! When values of a net may be merged, so that there is one less, what the tables of the net and of its readers become, and why
//! the network then means the same.
#![tactic(auto)]

mod change;
mod law;
mod merging;
mod tables;
mod verdict;

pub use change::merge_change;
pub use law::merging_laws;
pub use merging::Merging;
pub use verdict::{MergeVerdict, merge_verdict};
