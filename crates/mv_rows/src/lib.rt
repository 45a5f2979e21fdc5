//! Tables of a file as covers: the sets of a row as the cube of its nets, and its output entry as the outputs of lines.
#![tactic(auto)]

mod column;
mod cube;
mod line_set;
mod lines;
mod looks;
mod named;
mod stop;
mod table;

pub use column::{Column, Frame, Placed};
pub use line_set::LineSet;
pub use looks::is_marked;
pub use stop::RowStop;
pub use table::{FlatTable, flat_table, flat_table_of, flat_table_within};
