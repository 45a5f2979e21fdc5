use mv_base::Memory;

/// Why the lines of a table's rows aren't made.
#[derive(Clone, Copy, Debug, PartialEq, Eq)]
pub enum RowStop {
    /// There are more distinct lines with an output than were asked for.
    Many,
    /// Want of memory, which says nothing of the table.
    Memory,
}

impl From<Memory> for RowStop {
    ghost use Rattle.std.specs.Prelude.{◌≡◌};
    ghost use Rattle.mv_rows.specs.declared.stop.RowStop.TheVariants.{Memory as out_of_memory};

    ghost from_gives = { λ _ e. e ≡ out_of_memory };

    fn from(_memory: Memory) -> RowStop {
        RowStop::Memory
    }
}
