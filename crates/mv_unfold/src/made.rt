use mv_base::{Items, Name};
use mv_design::FileModel;

/// The one model, and the names of all its nets in unfolding order.
#[derive(Drop)]
pub struct Whole {
    pub model: FileModel,
    pub nets: Items<Name>,
}
