//! What rewriting tables of a network means: when a network with other tables, with one net more or with one net less is well
//! formed, and when it means what it meant. There is no code here but laws, whose contracts are theorems for the rules that
//! change networks; the lemmas behind them are in `proofs/`.
#![tactic(auto)]

mod laws;

pub use laws::{
    adding_laws, change_laws, collapsing_laws, filling_laws, narrowing_laws, one_table_laws,
    reformed_laws, rewriting_laws, wiring_laws,
};
