//! That rules which apply can be printed and are read back: their names are words of a text, their sets can be said, and what
//! is read back of them applies again. There is no code here but laws, whose contracts are theorems; the lemmas behind them are
//! in `proofs/`.
#![tactic(auto)]

mod laws;

pub use laws::{name_laws, replay_laws, rule_laws};
