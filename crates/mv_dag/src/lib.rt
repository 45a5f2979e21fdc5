//! Graphs of nets by number without cycles, which keep for each net its readers, and an order of all, while they change: a label
//! for each net falls from it to each that it reads, so that a search between two labels tells whether a net is above another,
//! and a sort by label puts nets behind those that they read. Where a net comes to read others, labels move between it and them
//! alone.
#![tactic(auto)]

mod above;
mod change;
mod dag;
mod entering;
mod growing;
mod label;
mod labels;
mod moves;
mod new_rows;
mod orders;
mod reach;
mod readers;
mod rows;
mod way;
mod window;

pub use dag::Dag;
pub use new_rows::NewRow;
