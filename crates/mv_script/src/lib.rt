//! Scripts: the items that a text says, or its first fault.
#![tactic(auto)]

mod building;
mod byte;
mod copying;
mod count;
mod fault;
mod fault_text;
mod idle;
mod laws;
mod number;
mod outermost;
mod part;
mod read;
mod reading;
mod said;
mod script;
mod token;
mod turn;

pub use fault::{FaultKind, ScriptFault, TextFault};
pub use fault_text::put_text_fault;
pub use idle::has_command;
pub use laws::script_laws;
pub use read::read_script;
pub use script::Script;
