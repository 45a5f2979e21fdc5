//! The lines of a certificate to the rules that it lists.
#![tactic(auto)]

mod encoding;
mod fault;
mod keyword;
mod laws;
mod line;
mod number;
mod reader;
mod said;
mod set;
mod step;

pub use fault::StepFault;
pub use laws::printed_laws;
pub use reader::read_cert;
pub use step::Step;
