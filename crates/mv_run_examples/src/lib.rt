//! Tests of whole runs, over files and sinks in memory.
#![tactic(auto)]

#[cfg(test)]
mod blif;
#[cfg(test)]
mod cases;
#[cfg(test)]
mod checks;
#[cfg(test)]
mod commands;
#[cfg(test)]
mod defaulted;
#[cfg(test)]
mod determined;
#[cfg(test)]
mod encoded;
#[cfg(test)]
mod examples;
#[cfg(test)]
mod extractions;
#[cfg(test)]
mod faults;
#[cfg(test)]
mod freely;
#[cfg(test)]
mod instances;
#[cfg(test)]
mod joints;
#[cfg(test)]
mod limits;
#[cfg(test)]
mod merged;
#[cfg(test)]
mod networks;
#[cfg(test)]
mod refusals;
#[cfg(test)]
mod runs;
#[cfg(test)]
mod simplified;
#[cfg(test)]
mod standard_input;
#[cfg(test)]
mod states;
#[cfg(test)]
mod texts;
#[cfg(test)]
mod traced;
#[cfg(test)]
mod works;
