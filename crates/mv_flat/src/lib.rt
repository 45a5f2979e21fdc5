//! A design to the network of its root with all instances.
#![tactic(auto)]

mod columns;
mod covers;
mod flat;
mod fresh;
mod latches;
mod laws;
mod made;
mod mark;
mod nets;
mod numbers;
mod shared;
mod size;
mod tables;
mod values;

pub use flat::{flatten, flatten_owned};
pub use laws::{at_most_one_network, refused_rightly};
pub use mv_fault::FlatFault;
