//! The command `merge`: values go that a net never has or that no literal tells from another.
#![tactic(auto)]

mod laws;
mod merging;

pub use laws::{merge_laws, merged_laws};
pub use merging::merge;
pub use mv_pass::Stop;
