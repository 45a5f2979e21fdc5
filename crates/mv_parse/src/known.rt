use mv_base::{Items, Name, NameSet};
use mv_decl::Decls;
use mv_design::{FileLatch, FileModel, FileTable, Instance};

/// What the lines of the open table say so far: how many columns of each kind it has, how many rows, and whether its
/// default has stood.
#[derive(Clone, Copy, Debug, PartialEq, Eq)]
pub struct OpenTable {
    pub ins: usize,
    pub outs: usize,
    pub rows: u64,
    pub has_default: bool,
}

/// What the lines of the open model say so far. Of its instances it has the names.
#[derive(Drop)]
pub struct OpenModel {
    pub line: u32,
    pub name: Name,
    pub inputs: NameSet,
    pub outputs: NameSet,
    pub decls: Decls,
    pub instances: NameSet,
    pub table: Option<OpenTable>,
}

/// What lines of a model say besides its ports and its declarations.
#[derive(Drop)]
pub struct Contents {
    pub tables: Items<FileTable>,
    pub latches: Items<FileLatch>,
    pub resets: Items<FileTable>,
    pub instances: Items<Instance>,
}

/// The root as a line names it.
#[derive(Drop)]
pub struct Root {
    pub line: u32,
    pub name: Name,
}

/// What the lines so far say: the models that have ended and their names, the root, and the model that is open.
#[derive(Drop)]
pub struct Known {
    pub models: Items<FileModel>,
    pub names: NameSet,
    pub root: Option<Root>,
    pub inside: Option<OpenModel>,
}
