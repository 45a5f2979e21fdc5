//! Files that are read to their end: their bytes, up to a limit, or their lines, lexed while they are read; and the lines of a text.
#![tactic(auto)]

mod lines;
mod read;
mod text;

pub use lines::{LinesStop, read_lines};
pub use read::{ReadStop, read_file};
pub use text::lines_of_text;
