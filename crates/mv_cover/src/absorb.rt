ghost use Rattle.std.specs.Prelude.{◌≡◌, ℕ, IfOk, OnOk, OnErr};
ghost use Rattle.mv_cover.specs.Covers.{allowed};
ghost use Rattle.mv_cover.specs.Absorb as spec;
ghost use Rattle.mv_cover.specs.Absorb.{absorbed, some_bare, IsLeftOf};

use crate::{Absorber, Cover, Line};
use mv_base::{Memory, PackedSet};
use std::alloc::Global;

impl Cover {
    /// Lets go of the lines that are equal to an earlier one, then of those that lie in another, and of the default
    /// where a line without literals is left. What is allowed stays as it is. For want of memory the cover is as before.
    /// The lines are put one by one into an `Absorber`.
    pub fn absorb(&mut self) -> Result<(), Memory>
        ensures tidied { OnOk result (self.new ≡ absorbed self.old) }
        ensures same { OnOk result
            ((at : ℕ → ℕ) (value : ℕ) → allowed self.new at value ≡ allowed self.old at value) }
        ensures err { OnErr result (self.new ≡ self.old) }
    {
        let left = lines_left(self.lines.allocator(), self.lines.as_slice())?;
        let cover = left.finish(self.default.take());
        self.lines = cover.lines;
        self.default = cover.default;
        Ok(())
    }
}

/// The lines that are left of these.
fn lines_left(alloc: Global, lines: &[Line]) -> Result<Absorber, Memory>
    ensures { IfOk result (λ left. IsLeftOf lines.now left) }
{
    let mut left = Absorber::new(alloc);
    for line in lines {
        left.put(line.copy()?)?;
    }
    Ok(left)
}

/// The default, unless some line has no literal.
pub(crate) fn default_beside(lines: &[Line], default: Option<PackedSet>) -> Option<PackedSet>
    ensures { result ≡ spec.default_beside lines.now default }
{
    if some_line_is_bare(lines) {
        None
    } else {
        default
    }
}

/// Whether some line has no literal.
fn some_line_is_bare(lines: &[Line]) -> bool
    ensures { result ≡ some_bare lines.now }
{
    lines.iter().any(|line| line.cube.len() == 0)
}
