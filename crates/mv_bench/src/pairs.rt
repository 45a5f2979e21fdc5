ghost use Rattle.std.specs.Prelude.{◌≡◌, ◌<◌, false, nat_eq, IfOk};
ghost use Rattle.mv_base.specs.Set.{empty};

use mv_base::{Items, Memory, NetId, PackedSet, Value, ValueSet};
use mv_cover::{Cube, Line, Lit};
use rand_core::utils::NextWord;
use rand_pcg::Pcg32;
use std::alloc::Global;

/// How many pairs of nets there are: the complement of a line for each of them has as many cubes as one may have.
const PAIRS: u32 = 12;
/// The nets of all pairs, which have the numbers from 0 on.
pub const NETS: usize = 24;

/// The literal that a net of two values has the second one.
#[tactic(auto, using(mv_cover::proofs::Points::one_some))]
fn second_value(alloc: Global, net: u32) -> Result<Lit, Memory>
    ensures net { IfOk result (λ l. l.net.0 ≡ net) }
    ensures some { IfOk result (λ l. nat_eq l.set empty ≡ false) }
{
    Lit::new(alloc, NetId(net), ValueSet::one(Value(1)))
}

/// The line of the pair at this place, in which both nets have the second value.
fn pair_line(alloc: Global, place: u32) -> Result<Line, Memory>
    requires { place < PAIRS }
{
    let lits = [
        second_value(alloc, 2 * place)?,
        second_value(alloc, 2 * place + 1)?,
    ];
    Ok(Line {
        cube: Cube::new(alloc, &lits)?,
        out: PackedSet::new(alloc, ValueSet::one(Value(1)))?,
    })
}

/// A line for each pair, and then so many drawn among them.
pub fn pair_lines(alloc: Global, random: &mut Pcg32, size: u32) -> Result<Items<Line>, Memory> {
    let mut lines = Items::new(alloc);
    for place in 0..PAIRS {
        lines.push(pair_line(alloc, place)?)?;
    }
    for _line in 0..size {
        lines.push(pair_line(alloc, random.next_word() % PAIRS)?)?;
    }
    Ok(lines)
}
