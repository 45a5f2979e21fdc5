//! The flexibility of a net in a window, decided by going through the window's points.
#![tactic(auto)]

mod allow;
mod asked;
mod decide;
mod flexibility;
mod left;
mod plan;
mod search;
mod space;
mod stop;
mod truth;
mod verdict;

pub use decide::flex;
pub use flexibility::Flexibility;
pub use stop::FlexStop;
pub use verdict::Verdict;
