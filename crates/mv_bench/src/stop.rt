use mv_base::{Failed, Memory};
use mv_fault::ParseFault;
use mv_lex::LexFault;
use std::alloc::{AllocError, AllocFailed};
use std::{fmt, io};

/// Why no more tasks are done.
#[derive(Debug, Drop)]
pub enum Stop {
    /// The words are no task, size and seed.
    Words,
    Memory,
    /// Standard input couldn't be read.
    Read,
    /// Standard input isn't made of lines of words.
    Lex(LexFault),
    /// Standard input is no network file of a form that is read.
    Parse(ParseFault),
    /// Standard input says no network.
    Network,
    /// The words couldn't be read, or a line couldn't be printed.
    Host(io::Error),
}

impl From<Memory> for Stop {
    fn from(_memory: Memory) -> Stop {
        Stop::Memory
    }
}

impl From<AllocError> for Stop {
    fn from(_error: AllocError) -> Stop {
        Stop::Memory
    }
}

impl<T: Drop> From<AllocFailed<T>> for Stop {
    fn from(_failed: AllocFailed<T>) -> Stop {
        Stop::Memory
    }
}

impl From<Failed> for Stop {
    fn from(_failed: Failed) -> Stop {
        Stop::Read
    }
}

impl From<LexFault> for Stop {
    fn from(fault: LexFault) -> Stop {
        Stop::Lex(fault)
    }
}

impl From<ParseFault> for Stop {
    fn from(fault: ParseFault) -> Stop {
        Stop::Parse(fault)
    }
}

impl From<io::Error> for Stop {
    fn from(error: io::Error) -> Stop {
        Stop::Host(error)
    }
}

impl fmt::Display for Stop {
    fn fmt<W: fmt::Write>(&self, f: &mut fmt::Formatter<W>) -> fmt::Result {
        match self {
            Stop::Words => write!(
                f,
                "the words are lex, parse, rules KIND COUNT, flex D U TIMES, or TASK SIZE SEED once or more; a TASK is covers, absorb, complement, kernels or meet"
            ),
            Stop::Memory => write!(f, "out of memory"),
            Stop::Read => write!(f, "standard input can't be read"),
            Stop::Lex(fault) => write!(f, "{fault}"),
            Stop::Parse(fault) => write!(f, "{fault:?}"),
            Stop::Network => write!(f, "standard input says no network"),
            Stop::Host(error) => write!(f, "{error}"),
        }
    }
}
