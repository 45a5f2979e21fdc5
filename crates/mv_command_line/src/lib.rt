//! The words of a command line, and the task that they ask for.
#![tactic(auto)]

mod given;
mod number;
mod reading;
mod task;

pub use reading::read_words;
pub use task::{Options, Task, WordsStop};
