//! Lines of a network file to a design, or the first fault of the lines.
#![tactic(auto)]

mod command;
mod known;
mod latches;
mod lines;
mod reader;
mod roots;
mod step;
mod tables;

pub use mv_design::{Bind, Decl, Design, Entry, FileLatch, FileModel, FileTable, Instance, Row};
pub use mv_fault::{ParseFault, Which, put_parse_fault};
pub use reader::{one_answer, parse, parse_owned};
