//! Tables made deterministic: each line stands only where none before it does, with its least value.
#![tactic(auto)]

mod behind;
mod laws;
mod making;

pub use laws::determined_laws;
pub use making::determined;
