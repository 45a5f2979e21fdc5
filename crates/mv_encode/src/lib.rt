//! The command `encode`: where a net has three values or more, nets of two values take its place, one for each bit of the codes of
//! its values.
#![tactic(auto)]

mod codes;
mod encoding;
mod laws;
mod names;
mod visiting;

pub use laws::encode_laws;
pub use mv_pass::Stop;
pub use visiting::encode;
