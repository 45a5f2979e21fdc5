use mv_base::{Memory, Name};
use std::alloc::{AllocError, AllocFailed};
use thiserror::Error;

/// Why lines are no run of a network, with the number of the line at which it can be told.
#[derive(Debug, Drop, Error)]
pub enum TraceFault {
    /// The run has more than `MAX_STEPS` steps, and this is the first too many.
    #[error("line {line}: the run has too many steps")]
    Steps { line: u32 },
    /// So many words are wanted, one a column, and so many stand there.
    #[error("line {line}: {want} words are wanted, and {got} stand there")]
    Columns { line: u32, want: u64, got: u64 },
    /// The word names no value of its column's net.
    #[error("line {line}: a word names no value of its net")]
    UnknownValue { line: u32, word: Name },
    /// Want of memory, which says nothing of the lines.
    #[error("out of memory")]
    Memory,
}

impl From<Memory> for TraceFault {
    ghost use Rattle.std.specs.Prelude.{◌≡◌};
    ghost use Rattle.mv_trace.specs.declared.fault.TraceFault.TheVariants.{Memory as out_of_memory};

    ghost from_gives = { λ _ e. e ≡ out_of_memory };

    fn from(_memory: Memory) -> TraceFault {
        TraceFault::Memory
    }
}

impl From<AllocError> for TraceFault {
    ghost use Rattle.std.specs.Prelude.{◌≡◌};
    ghost use Rattle.mv_trace.specs.declared.fault.TraceFault.TheVariants.{Memory as out_of_memory};

    ghost from_gives = { λ _ e. e ≡ out_of_memory };

    fn from(_error: AllocError) -> TraceFault {
        TraceFault::Memory
    }
}

impl<T: Drop> From<AllocFailed<T>> for TraceFault {
    ghost use Rattle.std.specs.Prelude.{◌≡◌};
    ghost use Rattle.mv_trace.specs.declared.fault.TraceFault.TheVariants.{Memory as out_of_memory};

    ghost from_gives = { λ _ e. e ≡ out_of_memory };

    fn from(_failed: AllocFailed<T>) -> TraceFault {
        TraceFault::Memory
    }
}
