ghost use Rattle.std.specs.Prelude.{[], ◌∷◌, ◌++◌, List, OnOk};
ghost use Rattle.mv_cover.specs.declared.line.Line.{Line};

use mv_base::Memory;
use mv_cover::{Absorber, Line};

/// What takes lines one by one, as they come.
pub trait Taker {
    ghost use Rattle.std.specs.Prelude.{[], ◌∷◌, ◌++◌, List, OnOk};
    ghost use Rattle.mv_cover.specs.declared.line.Line.{Line};

    // these lines more were taken
    ghost takes: { Self → Self → List Line → Type 0 };

    /// Takes a line more.
    fn take(&mut self, line: Line) -> Result<(), Memory>
        ensures { OnOk result (takes self.old self.new (line ∷ [])) };

    ghost takes_none: { (a : Self) → takes a a [] };

    ghost takes_more: { (a b c : Self) (xs ys : List Line) → takes a b xs → takes b c ys → takes a c (xs ++ ys) };
}

impl Taker for Absorber {
    ghost use Rattle.mv_composite.specs.Puts.{Puts, puts_none, puts_more};

    ghost takes = { Puts };

    ghost takes_none = { puts_none };

    ghost takes_more = { puts_more };

    fn take(&mut self, line: Line) -> Result<(), Memory> {
        self.put(line)
    }
}
