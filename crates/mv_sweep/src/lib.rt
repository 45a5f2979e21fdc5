//! The commands `drop` and `sweep`: nets go that nobody sees or reads and whose table allows something everywhere; and with `sweep`
//! the readers of buffers read their fanins, and constants go into their readers.
#![tactic(auto)]

mod sweeping;
mod unread;
mod way;

pub use mv_pass::Stop;
pub use sweeping::sweep;
pub use unread::remove_unread;
