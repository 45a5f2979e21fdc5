ghost use Rattle.std.specs.Prelude.{◌≡◌};
ghost use Rattle.mv_line.specs.Words.{behind_first, first_word};

use mv_base::Name;
use mv_lex::LexLine;

/// The first word of a line.
pub fn first_word(line: &LexLine) -> &[u8]
    ensures { result.now ≡ first_word line.now }
{
    match line.words.as_slice() {
        [first, ..] => first.bytes(),
        [] => b"",
    }
}

/// The words of a line behind its first.
pub fn behind_first(line: &LexLine) -> &[Name]
    ensures { result.now ≡ behind_first line.now }
{
    match line.words.as_slice() {
        [_first, rest @ ..] => rest,
        [] => line.words.as_slice(),
    }
}
