ghost use Rattle.std.specs.Prelude.{◌≡◌, ◌<◌, ◌≤◌, [], length, All, OnOk};
ghost use Rattle.mv_cover.specs.Literal.{Lit as a_lit};
ghost use Rattle.mv_relation.specs.Placing.{all_placed, line_literals, own_literals, place_of, placed};

use mv_base::{Memory, PackedSet};
use mv_cover::{Line, Lit};
use mv_diagram::Literal;

/// How many literals stand before the first whose variable isn't below this one.
#[tactic(auto, using(crate::proofs::Inserting::placing))]
fn place_of(literals: &[Literal], var: u32) -> usize
    ensures place { result ≡ place_of var literals.now }
    ensures within { result ≤ length literals.now }
{
    for (place, literal) in literals.iter().enumerate() {
        if literal.var >= var {
            return place;
        }
    }
    literals.len()
}

/// Puts a literal before the first whose variable isn't below its own.
#[tactic(auto, using(crate::proofs::Inserting::insert_placed))]
fn put(literals: &mut Vec<Literal>, literal: Literal) -> Result<(), Memory>
    ensures { OnOk result (literals.new.items ≡ placed literal literals.old.items) }
{
    let place = place_of(literals.as_slice(), literal.var);
    literals.insert(place, literal)?;
    Ok(())
}

/// Puts the literals of a cube so, each with the variable of its net.
fn put_cube(literals: &mut Vec<Literal>, cube: &[Lit], vars: &[u32]) -> Result<(), Memory>
    requires { All (λ (l : a_lit). l.net.0 < length vars.now) cube.now }
    ensures { OnOk result (literals.new.items ≡ all_placed vars.now cube.now literals.old.items) }
{
    for lit in cube {
        let var = vars[lit.net().0 as usize];
        put(
            literals,
            Literal {
                var,
                set: lit.set(),
            },
        )?;
    }
    Ok(())
}

/// Leaves the literal of the output alone, or none.
fn begin(literals: &mut Vec<Literal>, own: u32, out: &PackedSet, gives: bool) -> Result<(), Memory>
    ensures { OnOk result (literals.new.items ≡ own_literals gives own out.now) }
{
    literals.clear();
    if gives {
        let set = out.get();
        literals.push(Literal { var: own, set })?;
        return Ok(());
    }
    Ok(())
}

/// Lets the list be the literals of a line, by ascending variable: those of its cube, and that of its output if it is
/// asked for.
pub fn put_line(
    literals: &mut Vec<Literal>,
    line: &Line,
    vars: &[u32],
    own: u32,
    gives: bool,
) -> Result<(), Memory>
    requires { All (λ (l : a_lit). l.net.0 < length vars.now) line.now.cube }
    ensures { OnOk result (literals.new.items ≡ line_literals vars.now own gives line.now) }
{
    begin(literals, own, &line.out, gives)?;
    put_cube(literals, line.cube.lits(), vars)
}
