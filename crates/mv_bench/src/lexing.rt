ghost use Rattle.std.specs.Prelude.{IfOk};
ghost use Rattle.mv_parse_laws.specs.Lines.{AreOfFile};

use crate::stop::Stop;
use mv_base::{Files, HostFiles};
use mv_lex::{Lexer, Lines};
use std::fmt;

/// The greatest number of bytes that are read.
const MOST: u64 = 1 << 30;
/// How many bytes are read at once.
const PIECE: usize = 65_536;

/// What standard input has.
#[derive(Clone, Copy, Debug, PartialEq, Eq)]
pub struct Counts {
    lines: usize,
    words: u64,
}

impl fmt::Display for Counts {
    fn fmt<W: fmt::Write>(&self, f: &mut fmt::Formatter<W>) -> fmt::Result {
        write!(f, "{} lines {} words", self.lines, self.words)
    }
}

/// How many lines and words there are.
fn counted(lines: &Lines) -> Counts {
    let lines = lines.as_slice();
    let mut words: u64 = 0;
    for line in lines {
        words = words.saturating_add(line.words.len() as u64);
    }
    Counts {
        lines: lines.len(),
        words,
    }
}

/// Lexes standard input piece by piece and keeps all lines.
pub fn lines_of_input(rt: &HostRuntime) -> Result<Lines, Stop>
    ensures { IfOk result AreOfFile }
{
    let mut files = HostFiles::new(rt);
    let mut lines = Lines::new(rt.alloc());
    let mut lexer = Lexer::new(rt.alloc(), MOST);
    let mut room = [0u8; PIECE];
    files.start("-")?;
    for _piece in 0..u64::MAX {
        let count = files.next(&mut room)?;
        if count == 0 {
            break;
        }
        lexer.feed(&room[..count], &mut lines)?;
    }
    lexer.finish(&mut lines)?;
    Ok(lines)
}

/// Lexes standard input, and counts its lines and their words.
pub fn lexed(rt: &HostRuntime) -> Result<Counts, Stop> {
    let lines = lines_of_input(rt)?;
    Ok(counted(&lines))
}
