//! Certificates: the journal by which a run writes one, and the replay of one on a network.
#![tactic(auto)]

mod fault;
mod laws;
mod note_journal;
mod replaying;

pub use fault::ReplayFault;
pub use laws::{at_most_one_outcome, never_both_replays};
pub use mv_step::{Step, StepFault, read_cert};
pub use note_journal::NoteJournal;
pub use replaying::replay;
