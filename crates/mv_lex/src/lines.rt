ghost use Rattle.std.specs.Prelude.{◌≡◌, IfOk};

use mv_base::{Items, Memory, Name};
use std::alloc::Global;
use std::marker::Model;

/// A line that has words: the number of its physical line, counted from 1, and the words.
#[derive(Drop)]
pub struct LexLine {
    pub number: u32,
    pub words: Items<Name>,
}

impl LexLine {
    /// A line without words. It takes no memory.
    pub fn empty(alloc: Global) -> LexLine {
        LexLine {
            number: 0,
            words: Items::new(alloc),
        }
    }

    /// An equal line.
    pub fn copy(&self) -> Result<LexLine, Memory>
        ensures { IfOk result (λ line. line ≡ self.now) }
    {
        Ok(LexLine {
            number: self.number,
            words: self.words.copy_names()?,
        })
    }
}

/// The lines read so far, in order.
#[derive(Drop)]
pub struct Lines {
    pub list: Vec<LexLine>,
}

impl Model for Lines {
    ghost use Rattle.std.specs.Prelude.{List};
    ghost use Rattle.mv_lex.specs.declared.lines.LexLine.{LexLine};

    ghost Value = { List LexLine };

    ghost view = { λ lines. lines.list.items };
}

impl Lines {
    ghost use Rattle.std.specs.Prelude.{◌≡◌, IfOk, []};

    /// No lines. It takes no memory.
    pub fn new(alloc: Global) -> Self
        ensures { result ≡ [] }
    {
        Lines {
            list: Vec::new(alloc),
        }
    }

    /// The lines.
    pub fn as_slice(&self) -> &[LexLine]
        ensures { result.now ≡ self.now }
    {
        self.list.as_slice()
    }

    /// Equal lines.
    pub fn copy(&self) -> Result<Lines, Memory>
        ensures { IfOk result (λ lines. lines ≡ self.now) }
    {
        Ok(Lines {
            list: copy_lines(*self.list.allocator(), self.list.as_slice())?,
        })
    }
}

/// The same lines in a vector of their own.
fn copy_lines(alloc: Global, lines: &[LexLine]) -> Result<Vec<LexLine>, Memory>
    ensures { IfOk result (λ copied. copied.items ≡ lines.now) }
{
    let mut copied = Vec::new(alloc);
    for line in lines {
        copied.push(line.copy()?)?;
    }
    Ok(copied)
}
