//! What decides whether a rule applies to a net: its table, the nets that read it, and their tables. Where these stay, so does the
//! answer. There is no code here but laws, whose contracts are theorems for the commands that look at nets again; the lemmas behind
//! them are in `proofs/`.
#![tactic(auto)]

mod laws;
mod step_laws;

pub use laws::{
    check_laws, composite_laws, count_laws, place_laws, row_laws, saving_laws, table_laws,
};
pub use step_laws::{around_laws, literal_laws, named_by_itself};
