ghost use Rattle.mv_base.specs.Outside.{Appends};
ghost use Rattle.mv_blif_read.specs.Told.{blif_line};

use mv_base::{Failed, Sink};
use mv_blif::BlifFault;
use mv_fault::{put_bare, put_parse_fault, put_word};

/// Puts the line that tells a fault of a BLIF file's lines. At Failed some first part of it was taken. It takes no memory.
pub fn put_blif_fault<K: Sink>(fault: &BlifFault, out: &mut K) -> Result<(), Failed>
    ensures { Appends (K.state out.old) (K.state out.new) (blif_line fault.now) result }
{
    match fault {
        BlifFault::Line(fault) => put_parse_fault(fault, out),
        BlifFault::SecondModel { line, name } => put_word(b"40 SecondModel", *line, name, out),
        BlifFault::MixedRows { line } => put_bare(b"41 MixedRows", *line, out),
        BlifFault::BadLatch { line, word } => put_word(b"42 BadLatch", *line, word, out),
        BlifFault::Memory => out.put(b"# fault memory\n"),
    }
}
