//! The flexibility of a net in a window, decided by diagrams.
#![tactic(auto)]

mod choices;
mod families;
mod find;
mod frame;
mod inner;
mod lacking;
mod lines;
mod missed;
mod nets;
mod outside;
mod plan;
mod verdict;
mod wide;

pub use wide::WideFlexibility;
