//! Run files: the steps of a recorded run of a network, as a file has them, whether the network allows them, and what
//! is told of it.
#![tactic(auto)]

mod answer;
mod fault;
mod laws;
mod reader;
mod run;
mod tell;
mod value;
mod values;

pub use answer::{AnswerPage, put_names, put_no, put_step};
pub use fault::TraceFault;
pub use laws::{run_laws, step_laws};
pub use reader::read_run;
pub use run::{MAX_STEPS, Run, RunStep};
pub use tell::put_trace_fault;
pub use values::Values;
