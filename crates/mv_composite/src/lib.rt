//! The table of a net put in for the net in the tables that read it, and how the lines that tables are made of are absorbed as
//! they come, however many those are.
#![tactic(auto)]

mod composite;
mod fanins;
mod given;
mod giver;
mod inner;
mod insertion;
mod lightest;
mod literal;
mod picked;
mod put;
mod taker;
mod weight;
mod wiring;

pub use composite::compose;
pub use fanins::has_many_fanins;
pub use given::left_of_given;
pub use giver::Giver;
pub use inner::Inner;
pub use literal::{literal_on, without};
pub use put::{put_all, put_met};
pub use taker::Taker;
pub use wiring::wire;
