//! Which merge of values comes first at a net: that of the least value that the net never gives, or of the first two that no
//! literal tells apart.
#![tactic(auto)]

mod classes;
mod given;
mod law;
mod next;
mod pair;

pub use law::next_merge_laws;
pub use next::{NextMerge, next_merge};
