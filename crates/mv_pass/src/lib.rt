//! What all commands share: a rule that is applied and noted, and what it means that entries follow each other from the beginning
//! of a command to its end, or to where it stops.
#![tactic(auto)]

mod ending;
mod laws;
mod stop;
mod taking;

pub use ending::end;
pub use stop::Stop;
pub use taking::{attempt, take, take_with, take_within};
