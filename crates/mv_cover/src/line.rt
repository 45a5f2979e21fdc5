ghost use Rattle.std.specs.Prelude.{◌≡◌, IfOk};
ghost use Rattle.mv_cover.specs.Cubes.{IsCube};

use crate::Cube;
use mv_base::{Memory, PackedSet};
use std::hash::{Hash, Hasher};

/// A line of a cover: where the cube holds, each value of the set is allowed.
#[derive(Drop)]
pub struct Line {
    pub cube: Cube,
    pub out: PackedSet,
}

impl Line {
    /// An equal line.
    pub fn copy(&self) -> Result<Line, Memory>
        ensures copy { IfOk result (λ line. line ≡ self.now) }
        ensures formed { IsCube self.now.cube }
    {
        Ok(Line {
            cube: self.cube.copy()?,
            out: self.out.copy()?,
        })
    }
}

impl PartialEq for Line {
    ghost use Rattle.mv_cover.specs.Equal.{line_eq};
    ghost use Rattle.mv_cover.specs.Keys.{line_eq-partial_equiv};

    ghost eq = { line_eq };

    ghost laws = { line_eq-partial_equiv };

    fn eq(&self, other: &Line) -> bool {
        self.cube == other.cube && self.out == other.out
    }
}

impl Eq for Line {
    ghost use Rattle.mv_cover.specs.Keys.{line_eq-equiv};

    ghost laws = { line_eq-equiv };
}

impl Hash for Line {
    ghost use Rattle.mv_cover.specs.Equal.{line_fed};
    ghost use Rattle.mv_cover.specs.Keys.{line_fed-same};

    ghost hash_input = { line_fed };

    ghost respects_eq = { line_fed-same };

    fn hash<H: Hasher>(&self, state: &mut H) {
        self.cube.hash(state);
        self.out.hash(state);
    }
}
