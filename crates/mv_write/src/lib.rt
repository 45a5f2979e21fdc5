//! The text of a network: the lines of its root, inputs and outputs, the declarations of its nets, its latches and the
//! tables, appended to a sink piece by piece.
#![tactic(auto)]

mod declarations;
mod entries;
mod latches;
mod network;
mod page;
mod pieces;
mod resets;
mod rows;
mod tables;

pub use network::{put_ports, write};
pub use page::Page;
pub use pieces::put_names;
pub use resets::is_reset_net;
pub use rows::behind as literals_behind;
