//! What a design is like that BLIF's grammar accepts: laws alone.
#![tactic(auto)]

mod laws;

pub use laws::{blif_designs_are_flat, blif_designs_are_proper};
