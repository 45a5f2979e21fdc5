//! Lines of a network file to a network.
#![tactic(auto)]

mod laws;
mod network;

pub use laws::{at_most_one_network, one_answer};
pub use network::{NetFault, network_of};
