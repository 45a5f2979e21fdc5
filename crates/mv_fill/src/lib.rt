//! The command `fill`: tables that allow nothing somewhere get a default.
#![tactic(auto)]

mod filling;
mod laws;
mod varied;

pub use filling::fill;
pub use laws::strict_laws;
pub use mv_pass::Stop;
