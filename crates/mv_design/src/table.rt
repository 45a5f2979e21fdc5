ghost use Rattle.std.specs.Prelude.{◌≡◌, IfOk};

use crate::copies::copy_entries;
use crate::rows::Rows;
use crate::short::{Entries, Sets};
use mv_base::{Items, Memory, Name, PackedSet};

/// What a row or a default says of an output column.
#[derive(Debug, Drop)]
pub enum Entry {
    /// One of these values.
    Set(PackedSet),
    /// The value at the position of the value of the input column at this place.
    Same(u32),
}

/// A row of a table: the values of each input column, and an entry for each output column.
#[derive(Drop)]
pub struct Row {
    pub ins: Sets,
    pub outs: Entries,
}

/// A table as a file has it: the number of its first line, its input columns and its output columns in order, its rows,
/// and what its default says of each output.
#[derive(Drop)]
pub struct FileTable {
    pub line: u32,
    pub inputs: Items<Name>,
    pub outputs: Items<Name>,
    pub rows: Rows,
    pub default: Option<Entries>,
}

impl Entry {
    /// An equal entry.
    pub fn copy(&self) -> Result<Entry, Memory>
        ensures { IfOk result (λ c. c ≡ self.now) }
    {
        match self {
            Entry::Set(set) => Ok(Entry::Set(set.copy()?)),
            Entry::Same(place) => Ok(Entry::Same(*place)),
        }
    }
}

impl FileTable {
    /// An equal table.
    pub fn copy(&self) -> Result<FileTable, Memory>
        ensures { IfOk result (λ c. c ≡ self.now) }
    {
        let default = match &self.default {
            Some(entries) => Some(copy_entries(self.inputs.allocator(), entries)?),
            None => None,
        };
        Ok(FileTable {
            line: self.line,
            inputs: self.inputs.copy_names()?,
            outputs: self.outputs.copy_names()?,
            rows: self.rows.copy()?,
            default,
        })
    }
}
