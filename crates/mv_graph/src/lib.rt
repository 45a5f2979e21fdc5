//! Graphs of nets by number: each net has a list of the nets that it reads, its columns. What turns such lists round and sorts
//! the nets behind their columns.
#![tactic(auto)]

mod rows;
mod sorting;
mod transpose;

pub use sorting::sorted;
pub use transpose::transposed;
