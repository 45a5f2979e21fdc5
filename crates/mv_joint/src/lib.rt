//! Tables of several outputs as covers: a choice net, whose values are the distinct rows of outputs, and a table on it for
//! each output.
#![tactic(auto)]

mod gather;
mod joint;
mod laws;
mod mark;
mod marked;
mod out_row;
mod plain;
mod split;
mod stop;

pub use gather::Gathered;
pub use joint::{JointStop, JointTable, joint_table};
pub use laws::{at_most_one_joint_table, mark_laws};
pub use marked::is_joint_marked;
pub use out_row::OutRow;
pub use plain::{SplitTable, plain_table};
pub use split::PlainRow;
pub use stop::CoversStop;
