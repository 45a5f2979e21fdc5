//! Texts that are written as lines of words, and what they are read back as. There is no code here but laws, whose contracts
//! are theorems for what is printed; the lemmas behind them are in `proofs/`.
#![tactic(auto)]

mod laws;

pub use laws::text_laws;
