//! What a design is like that the grammar accepts: laws alone.
#![tactic(auto)]

mod laws;

pub use laws::{designs_are_proper, lines_ascend};
