use mv_base::Memory;
use std::alloc::AllocFailed;
use thiserror::Error;

/// What is wrong with a text that is no script.
#[derive(Clone, Copy, Debug, PartialEq, Eq, Error)]
pub enum FaultKind {
    /// A word that begins no item, or a byte outside comments that is neither a blank nor one that can be seen.
    #[error("a word begins no item")]
    UnknownWord,
    /// A number or a net's name has to stand, and there is something else or the end.
    #[error("a number or the name of a net is missing")]
    Missing,
    /// A number that is too small or too large.
    #[error("a number is out of its range")]
    NumberRange,
    /// A `{` has to stand and doesn't, or stands where an item may begin; a `}` without `{`, or the end inside braces.
    #[error("a brace is missing or stands where none may")]
    Brace,
    /// The text has too many bytes.
    #[error("the script has too many bytes")]
    TooLong,
    /// The script has too many commands, unfolded.
    #[error("the script has too many commands")]
    TooMany,
    /// Too many braces are open.
    #[error("too many braces are open")]
    TooDeep,
}

/// What is wrong with a text, and the byte where it can be told, counted from 0.
#[derive(Clone, Copy, Debug, PartialEq, Eq, Error)]
#[error("byte {place}: {kind}")]
pub struct TextFault {
    pub kind: FaultKind,
    pub place: u64,
}

/// Why a text gives no script: it has a fault, or memory ran out.
#[derive(Clone, Copy, Debug, PartialEq, Eq, Error)]
pub enum ScriptFault {
    /// The first fault of the text.
    #[error("{0}")]
    Text(TextFault),
    /// Want of memory, which says nothing of the text.
    #[error("out of memory")]
    Memory,
}

impl From<Memory> for ScriptFault {
    ghost use Rattle.std.specs.Prelude.{◌≡◌};
    ghost use Rattle.mv_script.specs.declared.fault.ScriptFault.TheVariants.{Memory as out_of_memory};

    ghost from_gives = { λ _ e. e ≡ out_of_memory };

    fn from(_memory: Memory) -> ScriptFault {
        ScriptFault::Memory
    }
}

impl<T: Drop> From<AllocFailed<T>> for ScriptFault {
    ghost use Rattle.std.specs.Prelude.{◌≡◌};
    ghost use Rattle.mv_script.specs.declared.fault.ScriptFault.TheVariants.{Memory as out_of_memory};

    ghost from_gives = { λ _ e. e ≡ out_of_memory };

    fn from(_failed: AllocFailed<T>) -> ScriptFault {
        ScriptFault::Memory
    }
}
