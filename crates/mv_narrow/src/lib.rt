//! When the table of a net may give way to one that allows less, in a window round the net, and why the network may then take the
//! old one's place.
#![tactic(auto)]

mod fanins;
mod law;
mod verdict;
mod wide;

pub use fanins::is_over_fanins;
pub use law::{less_is_inside, narrow_laws, verdict_laws};
pub use verdict::{
    NarrowVerdict, are_total_below, narrow_verdict, verdict_above_total, verdict_with,
};
pub use wide::is_too_wide;
