//! Tests of what the lines of BLIF files say, and of what is told where they are refused.
#![tactic(auto)]

#[cfg(test)]
mod faults;
#[cfg(test)]
mod files;
mod said;

pub use said::{said_of, said_of_line};
