ghost use Rattle.std.specs.Prelude.{◌≡◌, ◌==◌, ◌↔◌, IsTrue, MatchBool, All, count_ones};
ghost use Rattle.mv_cover.specs.Plain.{Agree, GivesOne, IsOneDefault, IsPlainlyDeterministic, AllowsOne};

use crate::{Cover, Line, overlap};
use mv_base::PackedSet;

impl Cover {
    /// Whether each line and the default give one value, and lines that can hold together the same one:
    /// then no two values are allowed at one assignment.
    /// It looks at each two lines, with one walk along both cubes, and takes no memory.
    #[tactic(auto, using(crate::proofs::Single::allows_one))]
    pub fn plainly_deterministic(&self) -> bool
        ensures plain { MatchBool result (IsPlainlyDeterministic self.now)
            (IsPlainlyDeterministic self.now → ⊥) }
        ensures value { IsTrue result → AllowsOne self.now }
    {
        is_plainly_deterministic(self)
    }
}

/// Whether the cover is plain, by its default, its lines and each two of them.
fn is_plainly_deterministic(cover: &Cover) -> bool
    ensures { IsTrue result ↔ IsPlainlyDeterministic cover.now }
{
    let lines = cover.lines.as_slice();
    default_is_one(&cover.default) && all_give_one(lines) && all_agree(lines)
}

/// Whether the default, if there is one, is one value.
fn default_is_one(default: &Option<PackedSet>) -> bool
    ensures { IsTrue result ↔ IsOneDefault default.now }
{
    match default {
        None => true,
        Some(out) => out.get().count() == 1,
    }
}

/// Whether each line gives one value.
fn all_give_one(lines: &[Line]) -> bool
    ensures { IsTrue result ↔ All GivesOne lines.now }
{
    lines.iter().all(|line| line.out.get().count() == 1)
}

/// Whether each two of the lines agree.
fn all_agree(lines: &[Line]) -> bool
    ensures { IsTrue result ↔ All (λ l. All (Agree l) lines.now) lines.now }
{
    lines.iter().all(|line| agrees_with_all(line, lines))
}

/// Whether the line agrees with each of the lines.
fn agrees_with_all(line: &Line, lines: &[Line]) -> bool
    ensures { IsTrue result ↔ All (Agree line.now) lines.now }
{
    lines.iter().all(|other| agree(line, other))
}

/// Whether the lines give the same set wherever both cubes hold.
fn agree(a: &Line, b: &Line) -> bool
    ensures { IsTrue result ↔ Agree a.now b.now }
{
    a.out == b.out || !overlap::meet(a.cube.lits(), b.cube.lits())
}
