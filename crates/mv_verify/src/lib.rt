//! Whether one network refines another, with evidence where it doesn't: a point and a choice that anyone can check.
#![tactic(auto)]

mod answer;
mod by_points;
mod evidence;
mod interface;
mod laws;
mod prefixes;
mod side;
mod sizes;
mod text;

pub use answer::{Answer, Choice, Point};
pub use by_points::verify_by_points;
pub use laws::answer_laws;
pub use sizes::{levels, points};
pub use text::put_answer;
