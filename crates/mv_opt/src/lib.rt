//! The task of optimising: a script and a network are read, the script runs, and the network that is left is written; and
//! the same on a network that is drawn, of which a summary is written.
#![tactic(auto)]

mod drawn;
mod fault;
mod optimising;
mod output;
mod take;
mod working;

pub use drawn::work;
pub use fault::ScriptRefusal;
pub use optimising::optimise;
