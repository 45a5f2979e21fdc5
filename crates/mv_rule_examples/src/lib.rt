//! Tests of single rules on small networks, which are read from texts as the rules are.
#![tactic(auto)]

#[cfg(test)]
mod cases;
#[cfg(test)]
mod outcome;
#[cfg(test)]
mod rules;
#[cfg(test)]
mod wide;
