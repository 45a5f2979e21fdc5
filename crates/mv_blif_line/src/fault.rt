ghost use Rattle.std.specs.Prelude.{◌≡◌};
ghost use Rattle.mv_blif_line.specs.declared.fault.BlifFault.TheVariants.{Memory as out_of_memory};
ghost use Rattle.mv_blif_line.specs.Faults.{shared_fault};

use mv_base::{Memory, Name};
use mv_fault::ParseFault;
use std::alloc::AllocFailed;

/// Why the lines of a BLIF file are refused, with the number of the line at which it can be told. A word is told as the
/// line has it.
#[derive(Debug, Drop)]
pub enum BlifFault {
    /// A fault that a line of BLIF-MV can have too.
    Line(ParseFault),
    /// There is a model already.
    SecondModel { line: u32, name: Name },
    /// The output of the row isn't that of the first row of its table.
    MixedRows { line: u32 },
    /// The word may not stand there on the line of a latch.
    BadLatch { line: u32, word: Name },
    /// Want of memory, which says nothing of the lines.
    Memory,
}

impl From<ParseFault> for BlifFault {
    ghost from_gives = { λ fault e. e ≡ shared_fault fault };

    fn from(fault: ParseFault) -> BlifFault {
        match fault {
            ParseFault::Memory => BlifFault::Memory,
            fault => BlifFault::Line(fault),
        }
    }
}

impl From<Memory> for BlifFault {
    ghost from_gives = { λ _ e. e ≡ out_of_memory };

    fn from(_memory: Memory) -> BlifFault {
        BlifFault::Memory
    }
}

impl<T: Drop> From<AllocFailed<T>> for BlifFault {
    ghost from_gives = { λ _ e. e ≡ out_of_memory };

    fn from(_failed: AllocFailed<T>) -> BlifFault {
        BlifFault::Memory
    }
}
