//! Tests of what covers and kernels answer, for tables that are read from texts.
#![tactic(auto)]

#[cfg(test)]
mod covers;
#[cfg(test)]
mod kernels;
