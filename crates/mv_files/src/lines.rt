ghost use Rattle.std.specs.Prelude.{◌≡◌, ◌<◌, ◌-◌, ◌^◌, [], length, Err, IfOk, OnOk, IfErr};
ghost use Rattle.mv_lex.specs.declared.fault.LexFault.{LexFault};
ghost use Rattle.mv_lex.specs.Reading.{IsAfter};
ghost use Rattle.mv_files.specs.FileReading.{BeganNone, BeganOne, Stay};
ghost use Rattle.mv_files.specs.LexedFiles.{WasLexed, ReadFront, LinesCause};
ghost use Rattle.mv_files.specs.LexedPieces.{FedPiece, PieceCause, FedAll, FeedCause};

use crate::read::PIECE;
use mv_base::Files;
use mv_lex::{LexFault, Lexer, Lines};
use std::alloc::Global;

/// Why the lines of a file couldn't be read.
#[derive(Clone, Copy, Debug, PartialEq, Eq)]
pub enum LinesStop {
    /// A call of the files failed.
    Failed,
    /// The lexer stopped: at the content's first fault, or for want of memory.
    Lex(LexFault),
}

/// Lexes the next bytes of the current file, and answers whether there were any.
fn feed_piece<F: Files>(
    files: &mut F,
    room: &mut [u8],
    lexer: &mut Lexer,
    lines: &mut Lines,
) -> Result<bool, LinesStop>
    requires { 0 < length room.old }
    ensures fed { IfOk result
        (λ more. FedPiece (F.state files.old).held
        (F.state files.new).held lexer.old lexer.new lines.old lines.new more) }
    ensures stay { Stay (F.state files.old) (F.state files.new) }
    ensures stopped { IfErr result
        (PieceCause (F.state files.old) (F.state files.new) lexer.old (length room.old)) }
    ensures starts { BeganNone (F.state files.old) (F.state files.new) }
{
    let count = match files.next(room) {
        Ok(count) => count,
        Err(_failed) => return Err(LinesStop::Failed),
    };
    match lexer.feed(&room[..count], lines) {
        Ok(()) => Ok(0 < count),
        Err(fault) => Err(LinesStop::Lex(fault)),
    }
}

/// Lexes the current file up to its end or to its first fault.
fn feed_all<F: Files>(
    files: &mut F,
    lexer: &mut Lexer,
    lines: &mut Lines,
    limit: u64,
) -> Result<(), LinesStop>
    requires small { limit < 2 ^ 32 - 1 }
    requires start { IsAfter lexer.old [] }
    requires limit { lexer.old.limit ≡ limit }
    requires empty { lines.old ≡ [] }
    ensures fed { OnOk result
        (FedAll (F.state files.old).held (F.state files.new).held limit lexer.new lines.new) }
    ensures stay { Stay (F.state files.old) (F.state files.new) }
    ensures stopped { IfErr result (FeedCause (F.state files.old) (F.state files.new) limit) }
    ensures starts { BeganNone (F.state files.old) (F.state files.new) }
{
    let mut room = [0u8; PIECE];
    for _turn in 0..limit + 1 {
        match feed_piece(files, &mut room, lexer, lines) {
            Ok(true) => {}
            Ok(false) => return Ok(()),
            Err(stop) => return Err(stop),
        }
    }
    unreachable!()
}

/// The lines of the named file, of so many bytes at most. It is begun once, and no other is. It is lexed while it is read, and the reading stops at its first
/// fault: no piece is read behind the one in which that is told, and no more than the limit and one piece.
pub fn read_lines<F: Files>(
    alloc: Global,
    files: &mut F,
    name: &str,
    limit: u64,
) -> Result<Lines, LinesStop>
    requires { limit < 2 ^ 32 - 1 }
    ensures lexed { IfOk result (WasLexed (F.state files.old) (F.state files.new) name.now limit) }
    ensures stay { Stay (F.state files.old) (F.state files.new) }
    ensures stopped { IfErr result
        (LinesCause (F.state files.old) (F.state files.new) name.now limit) }
    ensures starts { BeganOne (F.state files.old) (F.state files.new) }
    ensures in_time { (fault : LexFault) → result ≡ Err (LinesStop.Lex fault)
        → ReadFront (F.state files.old) (F.state files.new) name.now limit }
{
    match files.start(name) {
        Ok(()) => {}
        Err(_failed) => return Err(LinesStop::Failed),
    }
    let mut lines = Lines::new(alloc);
    let mut lexer = Lexer::new(alloc, limit);
    match feed_all(files, &mut lexer, &mut lines, limit) {
        Ok(()) => {}
        Err(stop) => return Err(stop),
    }
    match lexer.finish(&mut lines) {
        Ok(()) => Ok(lines),
        Err(fault) => Err(LinesStop::Lex(fault)),
    }
}
