//! Lines of a BLIF file to a design with what it says of its latches, or the first fault of the lines.
#![tactic(auto)]

mod contents;
mod design;
mod inside;
mod known;
mod reader;
mod step;

pub use design::BlifDesign;
pub use mv_blif_line::BlifFault;
pub use mv_latch::{BlifLatch, LatchKind};
pub use reader::{one_answer, read_blif};
