//! What the printed entries of a run are read back as: no other entries have the same text, and as a certificate it lists the
//! rules among them. There is no code here but laws, whose contracts are theorems; the lemmas behind them are in `proofs/`.
#![tactic(auto)]

mod laws;

pub use laws::{certificate_laws, name_laws, print_laws};
