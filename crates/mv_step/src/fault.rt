use mv_base::Memory;
use std::alloc::{AllocError, AllocFailed};
use thiserror::Error;

/// Why lines are no certificate, with the number of the line at which it is told.
#[derive(Clone, Copy, Debug, PartialEq, Eq, Error)]
pub enum StepFault {
    /// The line can't stand where it stands. Where the lines end in a body, it is the line of the body's rule.
    #[error("line {line}: no such line may stand here")]
    Syntax { line: u32 },
    /// Want of memory, which says nothing of the lines.
    #[error("out of memory")]
    Memory,
}

impl From<Memory> for StepFault {
    ghost use Rattle.std.specs.Prelude.{◌≡◌};
    ghost use Rattle.mv_step.specs.declared.fault.StepFault.TheVariants.{Memory as out_of_memory};

    ghost from_gives = { λ _ e. e ≡ out_of_memory };

    fn from(_memory: Memory) -> StepFault {
        StepFault::Memory
    }
}

impl From<AllocError> for StepFault {
    ghost use Rattle.std.specs.Prelude.{◌≡◌};
    ghost use Rattle.mv_step.specs.declared.fault.StepFault.TheVariants.{Memory as out_of_memory};

    ghost from_gives = { λ _ e. e ≡ out_of_memory };

    fn from(_error: AllocError) -> StepFault {
        StepFault::Memory
    }
}

impl<T: Drop> From<AllocFailed<T>> for StepFault {
    ghost use Rattle.std.specs.Prelude.{◌≡◌};
    ghost use Rattle.mv_step.specs.declared.fault.StepFault.TheVariants.{Memory as out_of_memory};

    ghost from_gives = { λ _ e. e ≡ out_of_memory };

    fn from(_failed: AllocFailed<T>) -> StepFault {
        StepFault::Memory
    }
}
