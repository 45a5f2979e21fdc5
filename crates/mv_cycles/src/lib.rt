//! Cycles of nets: which of some nets stand above themselves.
#![tactic(auto)]

mod components;
mod cycle;
mod lookup;
mod ranking;
mod walk;

pub use cycle::first_turning;
