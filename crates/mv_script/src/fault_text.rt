ghost use Rattle.std.specs.Prelude.{◌≡◌};
ghost use Rattle.mv_base.specs.Outside.{Appends};
ghost use Rattle.mv_script.specs.Faults.{kind_words, fault_line};

use crate::{FaultKind, TextFault};
use itoa::Buffer;
use mv_base::{Failed, Sink, put_both};

/// The words of a fault's line before its place.
fn kind_words(kind: FaultKind) -> &'static [u8]
    ensures { result.now ≡ kind_words kind }
{
    match kind {
        FaultKind::UnknownWord => b"# fault script 1 UnknownWord ",
        FaultKind::Missing => b"# fault script 2 Missing ",
        FaultKind::NumberRange => b"# fault script 3 NumberRange ",
        FaultKind::Brace => b"# fault script 4 Brace ",
        FaultKind::TooLong => b"# fault script 5 TooLong ",
        FaultKind::TooMany => b"# fault script 6 TooMany ",
        FaultKind::TooDeep => b"# fault script 7 TooDeep ",
    }
}

/// Puts the line of a text's fault. It takes no memory.
pub fn put_text_fault<E: Sink>(fault: TextFault, notes: &mut E) -> Result<(), Failed>
    ensures { Appends (E.state notes.old) (E.state notes.new) (fault_line fault) result }
{
    let mut buffer = Buffer::new();
    put_both(
        kind_words(fault.kind),
        buffer.format(fault.place).as_bytes(),
        notes,
    )?;
    notes.put(b"\n")
}
