//! The nets from which on some table isn't total, and when a net that gets another table leaves them as they were.
#![tactic(auto)]

mod law;
mod partial;

pub use law::partial_nets_stay;
pub use partial::{PartialNets, partial_nets};
