ghost use Rattle.std.specs.Prelude.{◌≡◌, false, nat_eq, IfOk, IfSome};
ghost use Rattle.mv_base.specs.Set.{empty};

use mv_base::{Items, Memory, NetId, Value, ValueSet};
use mv_cover::{Cube, Lit};
use rand_core::utils::NextWord;
use rand_pcg::Pcg32;
use std::alloc::Global;

/// How many symbols there are: the second value of each of so many nets.
const SYMBOLS: u32 = 30;

/// The symbol of the net, or none, at the odds of one in six.
#[tactic(auto, using(mv_cover::proofs::Points::one_some))]
fn drawn_symbol(alloc: Global, random: &mut Pcg32, net: u32) -> Result<Option<Lit>, Memory>
    ensures net { IfOk result (λ drawn. IfSome drawn (λ l. l.net.0 ≡ net)) }
    ensures some { IfOk result (λ drawn. IfSome drawn (λ l. nat_eq l.set empty ≡ false)) }
{
    if random.next_word() % 6 > 0 {
        return Ok(None);
    }
    Ok(Some(Lit::new(alloc, NetId(net), ValueSet::one(Value(1)))?))
}

/// A cube of drawn symbols.
#[tactic(auto, using(mv_cover::proofs::Building::built))]
fn drawn_cube(alloc: Global, random: &mut Pcg32) -> Result<Cube, Memory> {
    let mut lits = Items::new(alloc);
    for net in 0..SYMBOLS {
        let drawn = drawn_symbol(alloc, random, net)?;
        if let Some(l) = drawn {
            lits.push(l)?;
        }
    }
    Cube::new(alloc, lits.as_slice())
}

/// So many cubes of drawn symbols.
pub fn drawn_cubes(alloc: Global, random: &mut Pcg32, size: u32) -> Result<Items<Cube>, Memory> {
    let mut cubes = Items::new(alloc);
    for _cube in 0..size {
        cubes.push(drawn_cube(alloc, random)?)?;
    }
    Ok(cubes)
}
