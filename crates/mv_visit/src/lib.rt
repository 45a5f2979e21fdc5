//! What commands share that visit all nets and give tables way to others: the notes, and a table that allows less, which is given in
//! the window of the net alone.
#![tactic(auto)]

mod lessening;
mod visit;

pub use lessening::lessen;
pub use visit::{has_table, narrowing, note_why};
