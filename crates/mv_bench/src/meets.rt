ghost use Rattle.std.specs.Prelude.{◌≡◌, ◌<◌, length, IfOk};
ghost use Rattle.mv_diagram.specs.Diagrams.{IsHeld};
ghost use Rattle.mv_diagram.specs.declared.node.Dd.{Dd};

use mv_base::{Memory, Value, ValueSet};
use mv_diagram::{Dd, Diagrams, Nodes};
use rand_core::utils::NextWord;
use rand_pcg::Pcg32;
use std::alloc::Global;

/// How many variables of two values the sets are over.
const VARIABLES: usize = 30;
/// How many of them a cube fixes at most.
const FIXED: u32 = 12;
/// Room for nodes.
const ROOM: u32 = 4_000_000;

/// The set with the points of one more drawn cube.
fn with_cube(diagrams: &mut Diagrams, random: &mut Pcg32, set: Dd) -> Result<Dd, Nodes>
    requires held { IsHeld diagrams.old set }
    requires counts { length diagrams.old.counts ≡ VARIABLES }
    ensures counts { IfOk result (λ _. length diagrams.new.counts ≡ VARIABLES) }
    ensures held { IfOk result (IsHeld diagrams.new) }
    ensures kept { IfOk result (λ _. (d : Dd) → IsHeld diagrams.old d → IsHeld diagrams.new d) }
{
    let mut cube = diagrams.one();
    'literals: for _ in 0..FIXED {
        let var = random.next_word() % (VARIABLES as u32);
        let value = Value((random.next_word() % 2) as u16);
        let literal = diagrams.literal(var, ValueSet::one(value))?;
        cube = diagrams.and(cube, literal)?;
    }
    diagrams.or(set, cube)
}

/// The set of so many drawn cubes.
fn drawn_set(diagrams: &mut Diagrams, random: &mut Pcg32, size: u32) -> Result<Dd, Nodes>
    requires { length diagrams.old.counts ≡ VARIABLES }
    ensures counts { IfOk result (λ _. length diagrams.new.counts ≡ VARIABLES) }
    ensures held { IfOk result (IsHeld diagrams.new) }
    ensures kept { IfOk result (λ _. (d : Dd) → IsHeld diagrams.old d → IsHeld diagrams.new d) }
{
    let mut set = diagrams.zero();
    'cubes: for _ in 0..size {
        set = with_cube(diagrams, random, set)?;
    }
    Ok(set)
}

/// How many nodes stand where two sets of so many drawn cubes, and the points of both, were made.
pub fn meet(alloc: Global, size: u32, seed: u64) -> Result<u32, Memory> {
    let mut random = Pcg32::new(seed, 0);
    let mut diagrams = Diagrams::with_room(alloc, &[2; VARIABLES], ROOM)?;
    let Ok(left) = drawn_set(&mut diagrams, &mut random, size) else {
        return Ok(0);
    };
    let Ok(right) = drawn_set(&mut diagrams, &mut random, size) else {
        return Ok(0);
    };
    let Ok(_both) = diagrams.and(left, right) else {
        return Ok(0);
    };
    Ok(diagrams.mark().0)
}
