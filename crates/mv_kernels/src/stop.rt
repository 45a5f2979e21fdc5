use mv_base::Memory;
use std::alloc::{AllocError, AllocFailed};
use thiserror::Error;

/// Why the kernels of a cover aren't answered.
#[derive(Clone, Copy, Debug, PartialEq, Eq, Error)]
pub enum KernelStop {
    /// The cover has more than `MAX_KERNELS` different kernels.
    #[error("the cover has too many kernels")]
    TooMany,
    /// Want of memory, which says nothing of the cover.
    #[error("out of memory")]
    Memory,
}

impl From<Memory> for KernelStop {
    ghost use Rattle.std.specs.Prelude.{◌≡◌};
    ghost use Rattle.mv_kernels.specs.declared.stop.KernelStop.TheVariants.{Memory as out_of_memory};

    ghost from_gives = { λ _ e. e ≡ out_of_memory };

    fn from(_memory: Memory) -> KernelStop {
        KernelStop::Memory
    }
}

impl From<AllocError> for KernelStop {
    ghost use Rattle.std.specs.Prelude.{◌≡◌};
    ghost use Rattle.mv_kernels.specs.declared.stop.KernelStop.TheVariants.{Memory as out_of_memory};

    ghost from_gives = { λ _ e. e ≡ out_of_memory };

    fn from(_error: AllocError) -> KernelStop {
        KernelStop::Memory
    }
}

impl<T: Drop> From<AllocFailed<T>> for KernelStop {
    ghost use Rattle.std.specs.Prelude.{◌≡◌};
    ghost use Rattle.mv_kernels.specs.declared.stop.KernelStop.TheVariants.{Memory as out_of_memory};

    ghost from_gives = { λ _ e. e ≡ out_of_memory };

    fn from(_failed: AllocFailed<T>) -> KernelStop {
        KernelStop::Memory
    }
}
