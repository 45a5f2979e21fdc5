//! The shared graph of tables: a network as a record of its parts, and `Network`, which keeps it
//! well formed with what is looked up in it.
#![tactic(auto)]

mod behind;
mod below;
mod change;
mod fanins;
mod fresh;
mod in_place;
mod kept;
mod laws;
mod made;
mod names;
mod network;
mod new_rows;
mod parts;
mod questions;
mod search;
mod seen;
mod settle;
mod tallies;
mod total;
mod window;

pub use change::{Change, NewCount, NewNet, NewTable};
pub use fanins::fanins_of_cover;
pub use laws::refinement_laws;
pub use made::made_name;
pub use network::Network;
pub use parts::{FlatLatch, FlatNet, Kind, NetParts};
pub use window::Window;
