use mv_base::Memory;

/// Why the covers of a table of several outputs aren't made.
#[derive(Clone, Copy, Debug, PartialEq, Eq)]
pub enum CoversStop {
    /// It has more than `MAX_JOINT_ROWS` distinct rows of outputs.
    Wide,
    /// The mark and the choice net have more lines than were asked for.
    Many,
    /// Want of memory, which says nothing of the table.
    Memory,
}

impl From<Memory> for CoversStop {
    ghost use Rattle.std.specs.Prelude.{◌≡◌};
    ghost use Rattle.mv_joint.specs.declared.stop.CoversStop.TheVariants.{Memory as out_of_memory};

    ghost from_gives = { λ _ e. e ≡ out_of_memory };

    fn from(_memory: Memory) -> CoversStop {
        CoversStop::Memory
    }
}
