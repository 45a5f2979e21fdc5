ghost use Rattle.std.specs.Prelude.{◌≡◌, ◌++◌, ◌∷◌, [], List, length, OnOk, OnErr};
ghost use Rattle.mv_cover.specs.declared.line.Line.{Line};
ghost use Rattle.mv_cover.specs.Absorb.{IsLeftOf};
ghost use Rattle.mv_cover.specs.Absorb as spec;

use crate::absorb::default_beside;
use crate::left::put_line;
use crate::marks::Marks;
use crate::{Cover, Line};
use mv_base::{Items, Memory, PackedSet};
use std::alloc::Global;
use std::marker::Model;

/// The lines that are left of those put so far, in the order in which they came. A line that lies in one that is left goes
/// at once, and what lies in a new line goes when that comes, so that no list of all lines is ever made.
#[derive(Drop)]
pub struct Absorber {
    lines: Vec<Line>,
    marks: Vec<Marks>,
}

impl Model for Absorber {
    ghost use Rattle.std.specs.Prelude.{◌≡◌, List, map};
    ghost use Rattle.mv_cover.specs.declared.line.Line.{Line};
    ghost use Rattle.mv_cover.specs.Marks.{line_marks};

    ghost Value = { List Line };

    ghost view = { λ a. a.lines.items };

    ghost invariant = { λ a. a.marks.items ≡ map line_marks a.lines.items };
}

impl Absorber {
    /// No lines. It takes no memory.
    pub fn new(alloc: Global) -> Absorber
        ensures { result ≡ [] }
    {
        Absorber {
            lines: Vec::new(alloc),
            marks: Vec::new(alloc),
        }
    }

    /// Puts a line more. For want of memory the lines are as before. It holds the marks of the line against those of each
    /// line that is left, and looks at both lines where one of them may lie in the other.
    pub fn put(&mut self, line: Line) -> Result<(), Memory>
        ensures ok { (ls : List Line) → IsLeftOf ls self.old
            → OnOk result (IsLeftOf (ls ++ line ∷ []) self.new) }
        ensures err { OnErr result (self.new ≡ self.old) }
    {
        put_line(&mut self.lines, &mut self.marks, line)
    }

    /// How many lines are left.
    pub fn len(&self) -> usize
        ensures { result ≡ length self.now }
    {
        self.lines.len()
    }

    /// The lines that are left, with this default unless one of them has no literal.
    pub fn finish(self, default: Option<PackedSet>) -> Cover
        ensures { result ≡ record { lines = self; default = spec.default_beside self default } }
    {
        let default = default_beside(self.lines.as_slice(), default);
        Cover {
            lines: Items::of(self.lines),
            default,
        }
    }
}
