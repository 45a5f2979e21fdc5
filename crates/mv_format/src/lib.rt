//! Formats of network files, BLIF-MV and BLIF: what a task is told of one, of which a network is read, from a file or from a text, and
//! in which it is written.
#![tactic(auto)]

mod fault;
mod format;
mod laws;
mod network;
mod numbers;
mod text;

pub use fault::FileFault;
pub use format::FileFormat;
pub use laws::format_laws;
pub use mv_blif_read::FileNetwork;
pub use network::{network_of_text, take_network};
pub use text::write_network;
