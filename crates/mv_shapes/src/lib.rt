//! Tables that stand in many instances of their model: their covers are made once for each shape of their columns, which many of
//! the instances have in common.
#![tactic(auto)]

mod distinct;
mod full;
mod over;
mod shape;
mod shared;

pub use full::{some_row_is_full, some_row_is_silent};
pub use shared::SharedTable;
