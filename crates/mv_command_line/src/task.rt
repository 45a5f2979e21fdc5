use std::alloc::AllocError;

/// What the options of a command line say.
#[derive(Clone, Copy, Debug, PartialEq, Eq)]
pub struct Options {
    /// Whether values under which the network allows nothing may be given any meaning.
    pub free: bool,
    /// How many nodes a diagram may have: from 1,000 to 4,000,000, or `DEFAULT_BUDGET` where no number is given.
    pub budget: u32,
}

/// What a command line asks for. A name of a file is as it was given: `-` is standard input, and an empty one names a file of that
/// name.
#[derive(Clone, Copy, Debug, PartialEq, Eq)]
pub enum Task<'a> {
    /// A network is to be optimised by a script.
    Opt {
        net: &'a str,
        script: &'a str,
        /// Whether the network files are BLIF, not BLIF-MV.
        blif: bool,
        options: Options,
    },
    /// A certificate of such a run is to be checked.
    Check {
        net: &'a str,
        certificate: &'a str,
        /// Whether the network files are BLIF, not BLIF-MV.
        blif: bool,
        options: Options,
    },
    /// A network of this size, from 1 to 20,000, is to be drawn from the seed and optimised by a script.
    Work {
        size: u32,
        seed: u64,
        script: &'a str,
        options: Options,
    },
    /// A network is to be asked whether it allows a run.
    Trace {
        net: &'a str,
        run: &'a str,
    },
}

/// Why no task comes of the words.
#[derive(Clone, Copy, Debug, PartialEq, Eq)]
pub enum WordsStop {
    /// They are no command line.
    Refused,
    /// Want of memory.
    Memory,
}

impl From<AllocError> for WordsStop {
    ghost use Rattle.std.specs.Prelude.{◌≡◌};
    ghost use Rattle.mv_command_line.specs.declared.task.WordsStop.TheVariants.{Memory};

    ghost from_gives = { λ _ stop. stop ≡ Memory };

    fn from(_error: AllocError) -> WordsStop {
        WordsStop::Memory
    }
}
