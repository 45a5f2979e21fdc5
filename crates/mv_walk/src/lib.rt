//! The walk through the instances of a design, and what is wrong with the commands that make them.
#![tactic(auto)]

mod bindings;
mod command;
mod firsts;
mod known;
mod laws;
mod opened;
mod paths;
mod ports;
mod walker;
mod walking;

pub use laws::walk_laws;
pub use opened::Opened;
pub use walking::walk;
