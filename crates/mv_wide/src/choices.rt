ghost use Rattle.std.specs.Prelude.{◌≡◌, ◌<◌, ◌&&◌, ℕ, Bool, true, length, List, slice_index, IfOk, OnOk};
ghost use Rattle.std.specs.Bool.{OnTrue, OnFalse};
ghost use Rattle.mv_base.specs.Set.{has};
ghost use Rattle.mv_cover.specs.Covers.{cube_reads};
ghost use Rattle.mv_diagram.specs.Sets.{Point, InRange};
ghost use Rattle.mv_diagram.specs.Sound.{AreCounts};
ghost use Rattle.mv_relation.specs.Relations.{assigned};
ghost use Rattle.mv_wide.specs.Choosing.{AreChosen, AreListed, all_hold_but, and_in, holds_but, in_line, is_left_out};

use mv_base::{Memory, NetId, ValueSet};
use mv_cover::{Line, Lit};

/// Lets each variable have all of its values.
fn choose_all(choices: &mut Vec<ValueSet>, counts: &[u16]) -> Result<(), Memory>
    requires { AreCounts counts.now }
    ensures { OnOk result (AreChosen counts.now choices.new.items (λ p. true)) }
{
    choices.clear();
    for count in counts {
        choices.push(ValueSet::full(*count))?;
    }
    Ok(())
}

/// Leaves of the values of a variable those of a set, and answers whether there are any.
pub fn narrow(choices: &mut Vec<ValueSet>, var: u32, set: ValueSet) -> bool
    ensures some { OnTrue result ((counts : List ℕ) (test : Point → Bool)
        → AreChosen counts choices.old.items test
        → AreChosen counts choices.new.items (and_in test var set)) }
    ensures none { OnFalse result ((counts : List ℕ) (test : Point → Bool)
        → AreChosen counts choices.old.items test → var < length counts
        → (p : Point) → InRange counts p → and_in test var set p ≡ true → ⊥) }
{
    let place = var as usize;
    if place >= choices.len() {
        return false;
    }
    let left = choices[place].meet(set);
    choices[place] = left;
    left != ValueSet::empty()
}

/// Whether the net is left out.
fn is_left_out(left_out: Option<NetId>, net: NetId) -> bool
    ensures { result ≡ is_left_out left_out net.0 }
{
    match left_out {
        Some(other) => net == other,
        None => false,
    }
}

/// The same by a literal, unless it is on the net that is left out.
fn narrow_by(
    choices: &mut Vec<ValueSet>,
    literal: &Lit,
    vars: &[u32],
    left_out: Option<NetId>,
) -> bool
    ensures some { OnTrue result ((counts : List ℕ) (test : Point → Bool)
        → AreChosen counts choices.old.items test → AreChosen counts choices.new.items
        (λ p. test p && holds_but left_out (assigned vars.now p) literal.now)) }
    ensures none { OnFalse result ((counts : List ℕ) (test : Point → Bool)
        → AreChosen counts choices.old.items test → literal.now.net.0 < length vars.now
        → slice_index vars.now literal.now.net.0 < length counts
        → (p : Point) → InRange counts p → test p ≡ true
        → holds_but left_out (assigned vars.now p) literal.now ≡ true → ⊥) }
{
    let net = literal.net();
    if is_left_out(left_out, net) {
        return true;
    }
    let place = net.0 as usize;
    if place >= vars.len() {
        return false;
    }
    let var = vars[place];
    let set = literal.set();
    narrow(choices, var, set)
}

/// The same by the literals of a cube.
fn narrow_by_all(
    choices: &mut Vec<ValueSet>,
    cube: &[Lit],
    vars: &[u32],
    left_out: Option<NetId>,
) -> bool
    ensures some { OnTrue result ((counts : List ℕ) (test : Point → Bool)
        → AreChosen counts choices.old.items test → AreChosen counts choices.new.items
        (λ p. test p && all_hold_but left_out (assigned vars.now p) cube.now)) }
    ensures none { OnFalse result ((counts : List ℕ) (test : Point → Bool)
        → AreChosen counts choices.old.items test → AreListed counts vars.now (cube_reads cube.now)
        → (p : Point) → InRange counts p → test p ≡ true
        → all_hold_but left_out (assigned vars.now p) cube.now ≡ true → ⊥) }
{
    for literal in cube {
        if !narrow_by(choices, literal, vars, left_out) {
            return false;
        }
    }
    true
}

/// Lets the values be those of the points of a line's cube, but for its literals on a net that is left out, with the values
/// of the line's output, and answers whether there are any.
pub fn choose_line(
    choices: &mut Vec<ValueSet>,
    counts: &[u16],
    line: &Line,
    vars: &[u32],
    own: u32,
    left_out: Option<NetId>,
) -> Result<bool, Memory>
    requires counts { AreCounts counts.now }
    requires own { own < length counts.now }
    ensures some { IfOk result (λ some. OnTrue some
        (AreChosen counts.now choices.new.items (in_line left_out vars.now own line.now))) }
    ensures none { IfOk result (λ some. OnFalse some
        (AreListed counts.now vars.now (cube_reads line.now.cube)
        → (p : Point) → InRange counts.now p
        → in_line left_out vars.now own line.now p ≡ true → ⊥)) }
{
    choose_all(choices, counts)?;
    if !narrow_by_all(choices, line.cube.lits(), vars, left_out) {
        return Ok(false);
    }
    Ok(narrow(choices, own, line.out.get()))
}
