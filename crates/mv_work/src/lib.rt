//! Work networks, which are drawn from a seed for runs that are measured, and the summary of such a run.
#![tactic(auto)]

mod drawing;
mod rows;
mod summary;
mod tables;
mod texts;
mod work;

pub use summary::{Summary, put_summary};
pub use work::{MAX_WORK_TABLES, MIN_WORK_TABLES, work_text};
