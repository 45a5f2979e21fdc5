//! Declared nets: the names of their values, and the line that declares them.
#![tactic(auto)]

mod commas;
mod count;
mod decls;
mod laws;
mod line;
mod lookup;

pub use decls::Decls;
pub use laws::line_laws;
pub use line::declare;
pub use lookup::Declared;
