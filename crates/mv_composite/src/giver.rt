ghost use Rattle.std.specs.Prelude.{List, OnOk};
ghost use Rattle.mv_cover.specs.declared.line.Line.{Line};

use crate::taker::Taker;
use mv_base::Memory;
use mv_cover::Line;

/// What makes lines of a line, the same each time.
pub trait Giver {
    ghost use Rattle.std.specs.Prelude.{List, OnOk};
    ghost use Rattle.mv_cover.specs.declared.line.Line.{Line};

    // the lines that it makes of a line
    ghost gives: { Self → Line → List Line };

    /// Puts the lines that it makes of the line to the taker.
    fn give<T: Taker>(&self, line: &Line, taker: &mut T) -> Result<(), Memory>
        ensures { OnOk result (T.takes taker.old taker.new (gives self.now line.now)) };
}
