//! Which nets can go into their readers with no more literals than before, and which can't because a composite is too wide. The
//! composites that were worked out are kept with their sums, and those of nets that changed are forgotten.
#![tactic(auto)]

mod judging;
mod kept;
mod laws;
mod row;

pub use judging::Verdict;
pub use kept::KeptComposites;
pub use laws::behind_laws;
