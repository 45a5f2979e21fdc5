//! A rule's body, which names nets, as a cover over the numbers of a network.
#![tactic(auto)]

mod choice;
mod cover;
mod known;
mod line;
mod literal;
mod sorted;

pub use choice::is_choice;
pub use cover::tidy_cover;
pub use known::is_known;
pub use literal::is_output;
