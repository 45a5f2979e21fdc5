ghost use Rattle.std.specs.Prelude.{◌≡◌, ◌↔◌, Some, IsTrue, MatchBool, All};
ghost use Rattle.mv_base.specs.Set.{one};
ghost use Rattle.mv_entry.specs.declared.rule.BodyLine.{BodyLine};
ghost use Rattle.mv_body.specs.Bodies.{IsChoice};

use mv_base::{Value, ValueSet};
use mv_entry::{Body, BodyLine};

/// Whether each line of the body gives 1 and its default is 0, as in the table of a net that a rule adds. It takes no
/// memory.
pub fn is_choice(body: &Body) -> bool
    ensures { MatchBool result (IsChoice body.now) (IsChoice body.now → ⊥) }
{
    is_zero(body.default_set()) && all_give_one(body.lines.as_slice())
}

/// Whether the default is 0.
fn is_zero(default: Option<ValueSet>) -> bool
    ensures { IsTrue result ↔ default ≡ Some (one 0) }
{
    default == Some(ValueSet::one(Value(0)))
}

/// Whether each of the lines gives 1.
fn all_give_one(lines: &[BodyLine]) -> bool
    ensures { IsTrue result ↔ All (λ (l : BodyLine). l.out ≡ one 1) lines.now }
{
    lines
        .iter()
        .all(|line| line.out.get() == ValueSet::one(Value(1)))
}
