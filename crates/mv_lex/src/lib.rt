//! The lines of a file: its bytes, fed in pieces of any size, cut into lines of words.
#![tactic(auto)]

mod cutter;
mod fault;
mod laws;
mod lexer;
mod lines;
mod number;
mod parts;

pub use fault::LexFault;
pub use laws::fault_laws;
pub use lexer::Lexer;
pub use lines::{LexLine, Lines};
pub use number::decimal;
