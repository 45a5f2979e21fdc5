//! Designs: what a network file says, model by model, as the description of BLIF-MV by Kukimoto has it.
#![tactic(auto)]

mod copies;
mod design;
mod rows;
mod short;
mod table;

pub use copies::{copy_entries, copy_sets, short_sets};
pub use design::{Bind, Decl, Design, FileLatch, FileModel, Instance};
pub use rows::Rows;
pub use short::{Entries, Sets};
pub use table::{Entry, FileTable, Row};
