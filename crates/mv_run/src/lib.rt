//! The top call: the task that the words ask for.
#![tactic(auto)]

mod laws;
mod running;

pub use laws::{notes_check, refused_exactly, replays_succeed, run_refused_exactly};
pub use running::run;
