ghost use Rattle.std.specs.Prelude.{◌≡◌, ◌≤◌, MatchBool, slice_index};
ghost use Rattle.mv_cover.specs.Containing.{FitsNet};
ghost use Rattle.mv_cover.specs.Sharp.{SuitsNet, Suits};
ghost use Rattle.mv_cover.specs.Complement.{LinesSuit};

use crate::count::count_of;
use crate::{Cover, Cube, Line, Lit};
use mv_base::{MAX_VALUES, ValueSet};

impl Cube {
    /// Whether each literal's set is some of the values that its net has by `counts`, but not all, and the net has no
    /// more than a net may have. It takes no memory.
    pub fn suits(&self, counts: &[u16]) -> bool
        ensures { MatchBool result (Suits counts.now self.now) (Suits counts.now self.now → ⊥) }
    {
        all_suit(self.lits(), counts)
    }
}

impl Cover {
    /// Whether the cube of each line suits the counts, which is the condition of the calls that take them.
    /// It takes no memory.
    pub fn suits(&self, counts: &[u16]) -> bool
        ensures { MatchBool result (LinesSuit counts.now self.now.lines)
            (LinesSuit counts.now self.now.lines → ⊥) }
    {
        lines_suit(self.lines.as_slice(), counts)
    }
}

/// Whether the cube of each line suits the counts.
fn lines_suit(lines: &[Line], counts: &[u16]) -> bool
    ensures { MatchBool result (LinesSuit counts.now lines.now)
        (LinesSuit counts.now lines.now → ⊥) }
{
    for line in lines {
        if !line.cube.suits(counts) {
            return false;
        }
    }
    true
}

/// Whether each of the literals suits the counts.
fn all_suit(lits: &[Lit], counts: &[u16]) -> bool
    ensures { MatchBool result (Suits counts.now lits.now) (Suits counts.now lits.now → ⊥) }
{
    for l in lits {
        if !fits(l, counts) {
            return false;
        }
    }
    true
}

/// Whether the net has values, no more than it may have, and the literal's set is some of them but not all.
fn fits(l: &Lit, counts: &[u16]) -> bool
    ensures { MatchBool result (SuitsNet counts.now l.now) (SuitsNet counts.now l.now → ⊥) }
{
    let count = count_of(counts, l.net());
    if count == 0 || MAX_VALUES < count {
        return false;
    }
    let full = ValueSet::full(count);
    let set = l.set();
    set.within(full) && set != full
}
