//! The command `collapse NET`: the net goes into its readers where the literals are no more then.
#![tactic(auto)]

mod collapsing;

pub use collapsing::collapse;
pub use mv_pass::Stop;
