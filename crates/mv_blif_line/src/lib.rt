//! One line of a BLIF file: what it is by its first word, the first of its faults, and what it says.
#![tactic(auto)]

mod command;
mod fault;
mod head;
mod latch;
mod row;
mod table;

pub use command::{Command, command_at, is_end, is_model, is_row};
pub use fault::BlifFault;
pub use head::{add_ports, check_end, check_model, check_names};
pub use latch::{add_reset, check_control, check_latch, copy_first, read_latch, settings};
pub use row::{OpenTable, count_row, open_table};
pub use table::read_table;
