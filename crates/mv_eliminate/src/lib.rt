//! The command `eliminate`: nets go into their readers where the literals are no more then.
#![tactic(auto)]

mod eliminating;
mod noting;

pub use eliminating::eliminate;
pub use mv_pass::Stop;
