//! Tests of texts: certificates, the words of command lines, drawn networks, and the pages in which texts are handed on.
#![tactic(auto)]

#[cfg(test)]
mod certificates;
#[cfg(test)]
mod command_lines;
#[cfg(test)]
mod pages;
#[cfg(test)]
mod works;
