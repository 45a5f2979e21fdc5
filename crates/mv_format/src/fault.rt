ghost use Rattle.mv_base.specs.Outside.{Appends};
ghost use Rattle.mv_format.specs.Faults.{lex_line};

use crate::numbers::{put_number, put_numbers};
use mv_base::{Failed, Sink};
use mv_blif::BlifFault;
use mv_blif_read::put_blif_fault;
use mv_fault::{FlatFault, put_flat_fault};
use mv_lex::LexFault;
use mv_parse::{ParseFault, put_parse_fault};
use mv_task::Fault;

/// Why a network file is refused: for a fault of its bytes, of its lines, as BLIF-MV or as BLIF, or of the design that they say.
#[derive(Debug, Drop)]
pub enum FileFault {
    Lex(LexFault),
    Parse(ParseFault),
    Blif(BlifFault),
    Flat(FlatFault),
}

/// Puts the line of a fault of a file's bytes.
fn put_lex_line<E: Sink>(fault: LexFault, notes: &mut E) -> Result<(), Failed>
    ensures { Appends (E.state notes.old) (E.state notes.new) (lex_line fault) result }
{
    match fault {
        LexFault::BadByte { line, byte } => put_numbers(
            b"# fault network 1 BadByte line ",
            line as u128,
            byte as u128,
            notes,
        ),
        LexFault::LongWord { line } => {
            put_number(b"# fault network 2 LongWord line ", line, notes)
        }
        LexFault::OpenBracket { line } => {
            put_number(b"# fault network 3 OpenBracket line ", line, notes)
        }
        LexFault::TooLarge { line } => {
            put_number(b"# fault network 4 TooLarge line ", line, notes)
        }
        LexFault::Memory => notes.put(b"# fault memory\n"),
    }
}

impl Fault for FileFault {
    ghost use Rattle.mv_format.specs.Faults.{net_line};

    ghost line = { net_line };

    fn put_line<E: Sink>(&self, notes: &mut E) -> Result<(), Failed> {
        match self {
            FileFault::Lex(fault) => put_lex_line(*fault, notes),
            FileFault::Parse(fault) => put_parse_fault(fault, notes),
            FileFault::Blif(fault) => put_blif_fault(fault, notes),
            FileFault::Flat(fault) => put_flat_fault(fault, notes),
        }
    }
}
