//! Sets of points of multi-valued variables as shared decision diagrams: equal sets have equal numbers.
#![tactic(auto)]

mod apply;
mod cube;
mod diagrams;
mod found;
mod literal;
mod look;
mod meet;
mod memo;
mod node;
mod quantify;
mod roots;
mod table;

pub use cube::Literal;
pub use diagrams::Diagrams;
pub use node::{Dd, Node, Nodes, Test};
