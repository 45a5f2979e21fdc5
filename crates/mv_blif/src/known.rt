use mv_base::NameSet;
use mv_blif_line::OpenTable;

/// What the lines so far say: whether the model has begun and whether it has ended, its ports, and the table that is open.
#[derive(Drop)]
pub struct Known {
    pub begun: bool,
    pub ended: bool,
    pub inputs: NameSet,
    pub outputs: NameSet,
    pub table: Option<OpenTable>,
}
