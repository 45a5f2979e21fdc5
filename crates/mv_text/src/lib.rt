//! What the text of a network is: its lines, each as a list of words. One crate writes that text, and another says what it
//! reads as. There is no code here but laws, whose contracts are theorems on texts; the lemmas behind them are in `proofs/`.
#![tactic(auto)]

mod laws;

pub use laws::text_laws;
