//! The command `simplify`: tables get tight in a window round their nets.
#![tactic(auto)]

mod asked;
mod laws;
mod simplifying;
mod visiting;

pub use laws::simplify_laws;
pub use mv_pass::Stop;
pub use simplifying::simplify;
