//! A design with instances as one model over all its nets, and what is wrong with these.
#![tactic(auto)]

mod by_name;
mod checking;
mod commands;
mod counts;
mod decls;
mod driving;
mod gather;
mod home_counts;
mod home_names;
mod homes;
mod joined;
mod laws;
mod layout;
mod made;
mod model;
mod naming;
mod recent;
mod reset_tables;
mod resets;
mod spans;
mod tables;
mod tallies;

pub use laws::{model_laws, sound_laws, whole_laws};
pub use made::Whole;
pub use model::{into_root, whole};
