//! What BLIF says of a latch besides its nets.
#![tactic(auto)]

mod latch;

pub use latch::{BlifLatch, LatchKind};
