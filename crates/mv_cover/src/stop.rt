use mv_base::Memory;
use std::alloc::{AllocError, AllocFailed};
use thiserror::Error;

/// Why the cubes of a complement, or a cover that is made with them, aren't answered.
#[derive(Clone, Copy, Debug, PartialEq, Eq, Error)]
pub enum CoverStop {
    /// A complement passes `MAX_COMPLEMENT_CUBES` cubes after some line, or the cover has too many lines or fanins.
    #[error("too wide")]
    Wide,
    /// Want of memory, which says nothing of the cover.
    #[error("out of memory")]
    Memory,
}

impl From<Memory> for CoverStop {
    ghost use Rattle.std.specs.Prelude.{◌≡◌};
    ghost use Rattle.mv_cover.specs.declared.stop.CoverStop.TheVariants.{Memory as out_of_memory};

    ghost from_gives = { λ _ e. e ≡ out_of_memory };

    fn from(_memory: Memory) -> CoverStop {
        CoverStop::Memory
    }
}

impl From<AllocError> for CoverStop {
    ghost use Rattle.std.specs.Prelude.{◌≡◌};
    ghost use Rattle.mv_cover.specs.declared.stop.CoverStop.TheVariants.{Memory as out_of_memory};

    ghost from_gives = { λ _ e. e ≡ out_of_memory };

    fn from(_error: AllocError) -> CoverStop {
        CoverStop::Memory
    }
}

impl<T: Drop> From<AllocFailed<T>> for CoverStop {
    ghost use Rattle.std.specs.Prelude.{◌≡◌};
    ghost use Rattle.mv_cover.specs.declared.stop.CoverStop.TheVariants.{Memory as out_of_memory};

    ghost from_gives = { λ _ e. e ≡ out_of_memory };

    fn from(_failed: AllocFailed<T>) -> CoverStop {
        CoverStop::Memory
    }
}
