//! Running a script: its commands change a network one after the other, in rounds where braces say so, and note what they do.
#![tactic(auto)]

mod command;
mod laws;
mod running;

pub use laws::{entries_replay, idle_items, no_more_literals};
pub use mv_pass::Stop;
pub use running::run_script;
