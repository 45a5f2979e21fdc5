//! The rules by which a network is changed: what each asks, what it leaves, and that what the network means stays.
#![tactic(auto)]

mod applying;
mod laws;
mod next;
mod plan;
mod terms;

pub use applying::{apply, apply_free, apply_on, apply_with, apply_within, literals_after};
pub use laws::{
    at_most_one_fault, at_most_one_network, collapse_laws, composite_laws, fill_keeps,
    names_are_visible, narrowing_keeps_partial, never_both, nodes_suffice, replay_laws,
    same_meaning, staying_laws, strict_applies,
};
pub use mv_entry::{
    Body, BodyLine, BodyLit, Code, Command, Journal, Note, Rule, RuleFault, Tally, Why,
};
pub use mv_partial::{PartialNets, partial_nets};
pub use mv_plans::{CoverStop, Inner, composite_literals, inner_of, is_unshared};
pub use next::apply_next;
pub use terms::Terms;
