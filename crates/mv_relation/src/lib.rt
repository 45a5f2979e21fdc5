//! The relation of a net's table as a set of points, as a diagram.
#![tactic(auto)]

mod cover;
mod lines;
mod literals;
mod relation;
mod stop;

pub use cover::{add_choice, add_cover};
pub use relation::add_relation;
pub use stop::RelationStop;
