ghost use Rattle.std.specs.Prelude.{◌≡◌, ◌<◌, ◌-◌, ◌^◌, IfOk, IfErr, OnOk, None};
ghost use Rattle.mv_lex.specs.Lines.{IsTold, lex_fault, lines_of};

use mv_lex::{LexFault, Lexer, Lines};
use std::alloc::Global;

/// The lines of a text, of so many bytes at most, lexed as those of a file are.
pub fn lines_of_text(alloc: Global, text: &[u8], limit: u64) -> Result<Lines, LexFault>
    requires { limit < 2 ^ 32 - 1 }
    ensures clean { OnOk result (lex_fault limit text.now ≡ None) }
    ensures lines { IfOk result (λ lines. lines ≡ lines_of text.now) }
    ensures fault { IfErr result (IsTold (lex_fault limit text.now)) }
{
    let mut lines = Lines::new(alloc);
    let mut lexer = Lexer::new(alloc, limit);
    match lexer.feed(text, &mut lines) {
        Ok(()) => {}
        Err(fault) => return Err(fault),
    }
    match lexer.finish(&mut lines) {
        Ok(()) => Ok(lines),
        Err(fault) => Err(fault),
    }
}
