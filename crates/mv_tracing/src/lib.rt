//! The task of telling whether a run is allowed: a network and a run file are read, the steps are decided, and then they are written
//! with the values of all nets, or the first that isn't allowed is told.
#![tactic(auto)]

mod asking;
mod deciding;
mod fault;
mod take;
mod tell;
mod tracing;
mod working;
mod writing;

pub use fault::RunRefusal;
pub use tracing::trace;
