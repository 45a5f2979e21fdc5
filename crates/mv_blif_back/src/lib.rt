//! What the text of a network as BLIF reads as: laws alone.
#![tactic(auto)]

mod laws;

pub use laws::{
    blif_latches_begin, blif_model_agrees, blif_model_is_acyclic, blif_model_is_seen,
    blif_reads_back, blif_tables_hold, blif_text_is_accepted, blif_text_is_read,
};
