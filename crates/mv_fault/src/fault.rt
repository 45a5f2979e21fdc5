ghost use Rattle.std.specs.Prelude.{◌≡◌};
ghost use Rattle.mv_fault.specs.declared.fault.ParseFault.TheVariants.{Memory as out_of_memory};

use mv_base::{Memory, Name};
use std::alloc::AllocFailed;

/// A limit of the program that a network passes.
#[derive(Clone, Copy, Debug, PartialEq, Eq)]
pub enum Which {
    Values,
    Columns,
    TableLines,
    Models,
    Depth,
    Instances,
    Nets,
    NetName,
    FlatLines,
    FlatEntries,
}

/// Why the lines of a network file are refused, with the number of the line at which it can be told. A word is told as
/// the line has it.
#[derive(Debug, Drop)]
pub enum ParseFault {
    /// The line begins with a word with a full stop that is no command.
    UnknownCommand {
        line: u32,
        word: Name,
    },
    /// No model is open.
    OutsideModel {
        line: u32,
    },
    /// The model that begins on this line doesn't end.
    NoEnd {
        line: u32,
    },
    /// Words are lacking behind this command.
    Missing {
        line: u32,
        word: Name,
    },
    /// There are words too many behind this command.
    Extra {
        line: u32,
        word: Name,
    },
    /// A net of no values: the count.
    BadCount {
        line: u32,
        word: Name,
    },
    /// So many names of values are wanted, and so many stand there.
    ValueNames {
        line: u32,
        wanted: u64,
        got: u64,
    },
    /// The net was declared before with other values.
    Redeclared {
        line: u32,
        name: Name,
    },
    /// So many entries of a row are wanted, and so many stand there.
    Columns {
        line: u32,
        wanted: u64,
        got: u64,
    },
    /// The word, or the item in its brackets, says no values of its column.
    UnknownValue {
        line: u32,
        word: Name,
    },
    /// The name behind `=` isn't an input column with as many values as this output, or may not stand there.
    BadEqual {
        line: u32,
        name: Name,
    },
    /// The table has a default already.
    DefaultTwice {
        line: u32,
    },
    /// There is a model of this name already.
    ModelTwice {
        line: u32,
        name: Name,
    },
    /// A second root, or one that is no model.
    RootFault {
        line: u32,
        name: Name,
    },
    /// The name stands there already.
    Repeated {
        line: u32,
        name: Name,
    },
    /// There is no model.
    NoModel {
        line: u32,
    },
    /// A limit is passed: the count that was written, or the limit plus one.
    Limit {
        line: u32,
        which: Which,
        number: u64,
    },
    /// No lawful name.
    BadName {
        line: u32,
        name: Name,
    },
    /// No table is open.
    NoTable {
        line: u32,
    },
    /// A latch whose input and output have different numbers of values.
    LatchValues {
        line: u32,
        input: Name,
        output: Name,
    },
    /// Want of memory, which says nothing of the lines.
    Memory,
}

impl From<Memory> for ParseFault {
    ghost from_gives = { λ _ e. e ≡ out_of_memory };

    fn from(_memory: Memory) -> ParseFault {
        ParseFault::Memory
    }
}

impl<T: Drop> From<AllocFailed<T>> for ParseFault {
    ghost from_gives = { λ _ e. e ≡ out_of_memory };

    fn from(_failed: AllocFailed<T>) -> ParseFault {
        ParseFault::Memory
    }
}
