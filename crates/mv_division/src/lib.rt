//! Why the rules of an extraction apply: one adds a net that stands for a common divisor, others divide tables by it. There
//! is no code here but laws, whose contracts are theorems for the commands that extract; the lemmas behind them are in
//! `proofs/`.
#![tactic(auto)]

mod law;

pub use law::{add_law, divide_law, literals_law};
