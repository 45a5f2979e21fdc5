//! New tables for the readers of a net, one after the other: when a list has one for each, and what holds of all of them. Tables
//! of a network as covers over the numbers of values of its nets, and the other way round.
#![tactic(auto)]

mod table;

pub use table::table_of;
