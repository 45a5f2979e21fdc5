//! Tests of what sets of points as diagrams answer.
#![tactic(auto)]

#[cfg(test)]
mod diagrams;
