use mv_base::Memory;
use std::alloc::{AllocError, AllocFailed};
use thiserror::Error;

/// Why a file's bytes are refused, with the physical line, counted from 1, of the byte at which it
/// can be told.
#[derive(Clone, Copy, Debug, PartialEq, Eq, Error)]
pub enum LexFault {
    /// A byte outside a comment that is neither visible nor a blank nor a line feed.
    #[error("line {line}: the byte {byte} may not stand in a file")]
    BadByte { line: u32, byte: u8 },
    /// A word of more than `MAX_WORD_BYTES` bytes, or a bracketed one of more than `MAX_BRACKETED_BYTES`.
    #[error("line {line}: a word is too long")]
    LongWord { line: u32 },
    /// A bracketed word that isn't closed where a comment begins, its line ends or the file does.
    #[error("line {line}: a bracket is not closed")]
    OpenBracket { line: u32 },
    /// A file of more bytes than the limit.
    #[error("line {line}: the file is too large")]
    TooLarge { line: u32 },
    /// Want of memory, which says nothing of the bytes.
    #[error("out of memory")]
    Memory,
}

impl From<Memory> for LexFault {
    ghost use Rattle.std.specs.Prelude.{◌≡◌};
    ghost use Rattle.mv_lex.specs.declared.fault.LexFault.TheVariants.{Memory as out_of_memory};

    ghost from_gives = { λ _ e. e ≡ out_of_memory };

    fn from(_memory: Memory) -> LexFault {
        LexFault::Memory
    }
}

impl From<AllocError> for LexFault {
    ghost use Rattle.std.specs.Prelude.{◌≡◌};
    ghost use Rattle.mv_lex.specs.declared.fault.LexFault.TheVariants.{Memory as out_of_memory};

    ghost from_gives = { λ _ e. e ≡ out_of_memory };

    fn from(_error: AllocError) -> LexFault {
        LexFault::Memory
    }
}

impl<T: Drop> From<AllocFailed<T>> for LexFault {
    ghost use Rattle.std.specs.Prelude.{◌≡◌};
    ghost use Rattle.mv_lex.specs.declared.fault.LexFault.TheVariants.{Memory as out_of_memory};

    ghost from_gives = { λ _ e. e ≡ out_of_memory };

    fn from(_failed: AllocFailed<T>) -> LexFault {
        LexFault::Memory
    }
}
