//! Tables of a network file: the columns of a table's first line, and what its rows and its default say.
#![tactic(auto)]

mod columns;
mod entries;
mod table;

pub use columns::{check_columns, check_names, check_reset, split_columns};
pub use table::{is_default_word, read_table};
