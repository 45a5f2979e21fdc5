use mv_base::{Memory, Name};

/// Why a word says no set of values.
#[derive(Debug, Drop)]
pub enum EntryFault {
    /// The word, or this item in its brackets, names no value.
    Unknown(Name),
    /// It is `=`, behind any number of `!`, and this name.
    Equal(Name),
    /// Want of memory, which says nothing of the word.
    Memory,
}

impl From<Memory> for EntryFault {
    ghost use Rattle.std.specs.Prelude.{◌≡◌};
    ghost use Rattle.mv_word.specs.declared.fault.EntryFault.TheVariants.{Memory as out_of_memory};

    ghost from_gives = { λ _ e. e ≡ out_of_memory };

    fn from(_memory: Memory) -> EntryFault {
        EntryFault::Memory
    }
}
