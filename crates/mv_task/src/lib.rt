//! What the tasks of a run share: the stages that they read, the lines that tell how a run ends, and all that is said of how it ends.
#![tactic(auto)]

mod ending;
mod stop;

pub use ending::put_done;
pub use stop::{Fault, Stop, refuse, tell};
