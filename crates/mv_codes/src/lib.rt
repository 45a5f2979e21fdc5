//! Codes of the values of a net: what the tables of its readers become when nets for the bits take its place, the tables of
//! those bits, and why together they allow what they did.
#![tactic(auto)]

mod bits;
mod coder;
mod coding;
mod cubes;
mod laws;
mod reader;

pub use bits::bit_table;
pub use coding::Coding;
pub use laws::{bit_laws, code_laws, reader_laws};
pub use reader::reader_coded;
