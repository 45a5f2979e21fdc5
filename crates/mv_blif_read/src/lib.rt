//! Lines of a BLIF file to a network, with what they say of its latches, and the line that tells why there is none.
#![tactic(auto)]

mod laws;
mod network;
mod tell;

pub use laws::{
    at_most_one_network, first_values_are_said, latches_are_said, networks_are_total, one_answer,
    tables_allow_one,
};
pub use network::{BlifNetFault, FileNetwork, blif_network_of};
pub use tell::put_blif_fault;
