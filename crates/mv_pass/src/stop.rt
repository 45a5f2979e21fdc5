ghost use Rattle.std.specs.Prelude.{◌≡◌};
ghost use Rattle.mv_pass.specs.declared.stop.Stop.TheVariants.{Memory as out_of_memory};

use mv_base::Memory;
use std::alloc::{AllocError, AllocFailed};
use thiserror::Error;

/// Why a command stops before its end.
#[derive(Clone, Copy, Debug, PartialEq, Eq, Error)]
pub enum Stop {
    #[error("the notes couldn't be written")]
    Note,
    #[error("memory is short")]
    Memory,
}

impl From<Memory> for Stop {
    ghost from_gives = { λ _ e. e ≡ out_of_memory };

    fn from(_error: Memory) -> Stop {
        Stop::Memory
    }
}

impl From<AllocError> for Stop {
    ghost from_gives = { λ _ e. e ≡ out_of_memory };

    fn from(_error: AllocError) -> Stop {
        Stop::Memory
    }
}

impl<T: Drop> From<AllocFailed<T>> for Stop {
    ghost from_gives = { λ _ e. e ≡ out_of_memory };

    fn from(_failed: AllocFailed<T>) -> Stop {
        Stop::Memory
    }
}
