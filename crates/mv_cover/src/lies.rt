ghost use Rattle.std.specs.Prelude.{◌≡◌};
ghost use Rattle.mv_cover.specs.Containing.{set_within};
ghost use Rattle.mv_cover.specs.Absorb.{line_lies};
ghost use Rattle.mv_cover.specs.Marks.{line_marks};

use crate::Line;
use crate::marks::Marks;
use mv_base::PackedSet;

/// Whether the line lies in the other. Their marks are looked at first: where the line lies, each mark of the other is one
/// of its own.
#[tactic(auto, using(crate::proofs::Marking::marked))]
pub(crate) fn lies_in_marked(line: &Line, own: Marks, other: &Line, marks: Marks) -> bool
    requires own { own ≡ line_marks line.now }
    requires marks { marks ≡ line_marks other.now }
    ensures { result ≡ line_lies line.now other.now }
{
    marks.are_among(own) && lies_in(line, other)
}

/// Whether the line's output lies in the other's, and its cube in the other's.
fn lies_in(line: &Line, other: &Line) -> bool
    ensures { result ≡ line_lies line.now other.now }
{
    is_within(&line.out, &other.out) && other.cube.contains(&line.cube)
}

/// Whether each value of the first set is one of the second.
fn is_within(first: &PackedSet, second: &PackedSet) -> bool
    ensures { result ≡ set_within first.now second.now }
{
    first.within(second)
}
