//! The text of a network as BLIF, as a definition.
#![tactic(auto)]

mod laws;

pub use laws::blif_text_laws;
