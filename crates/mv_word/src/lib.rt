//! What a word of a network file says: whether it is a lawful name of a net, of a model or of a value, and, as an entry of
//! a row or a default, which values of its net it means.
#![tactic(auto)]

mod entry;
mod fault;
mod laws;
mod list;
mod names;

pub use entry::{byte_set, word_set};
pub use fault::EntryFault;
pub use laws::entry_laws;
pub use names::{begins_with, is_model_name, is_net_name, is_text, is_value_name};
