use mv_base::Memory;
use std::alloc::{AllocError, AllocFailed};
use thiserror::Error;

/// Why there is no flexibility, or why something isn't decided by one.
#[derive(Clone, Copy, Debug, PartialEq, Eq, Error)]
pub enum FlexStop {
    /// The window is too wide. The levels are the values of its nets, of each one less.
    #[error("window of {levels} levels")]
    Window { levels: u64 },
    /// The pool of nodes is full.
    #[error("{cap} nodes")]
    Nodes { cap: u32 },
    /// Want of memory, which says nothing of the window.
    #[error("out of memory")]
    Memory,
}

impl From<Memory> for FlexStop {
    ghost use Rattle.std.specs.Prelude.{◌≡◌};
    ghost use Rattle.mv_flex.specs.declared.stop.FlexStop.TheVariants.{Memory as out_of_memory};

    ghost from_gives = { λ _ e. e ≡ out_of_memory };

    fn from(_memory: Memory) -> FlexStop {
        FlexStop::Memory
    }
}

impl From<AllocError> for FlexStop {
    ghost use Rattle.std.specs.Prelude.{◌≡◌};
    ghost use Rattle.mv_flex.specs.declared.stop.FlexStop.TheVariants.{Memory as out_of_memory};

    ghost from_gives = { λ _ e. e ≡ out_of_memory };

    fn from(_error: AllocError) -> FlexStop {
        FlexStop::Memory
    }
}

impl<T: Drop> From<AllocFailed<T>> for FlexStop {
    ghost use Rattle.std.specs.Prelude.{◌≡◌};
    ghost use Rattle.mv_flex.specs.declared.stop.FlexStop.TheVariants.{Memory as out_of_memory};

    ghost from_gives = { λ _ e. e ≡ out_of_memory };

    fn from(_failed: AllocFailed<T>) -> FlexStop {
        FlexStop::Memory
    }
}
