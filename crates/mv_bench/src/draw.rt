ghost use Rattle.std.specs.Prelude.{◌≡◌, true, false, nat_eq, nat_lt, IfOk, IfSome};
ghost use Rattle.std.specs.List.{list_all};
ghost use Rattle.mv_base.specs.Set.{empty};
ghost use Rattle.mv_bench.specs.Drawn.{lines_below};

use mv_base::{Items, Memory, NetId, PackedSet, Value, ValueSet};
use mv_cover::{Cube, Line, Lit};
use rand_core::utils::NextWord;
use rand_pcg::Pcg32;
use std::alloc::Global;

/// How many values each net has.
pub const VALUES: u16 = 4;

/// What cubes are drawn: over the nets from 0 on, with a literal on each of them at the odds of so many in eight.
#[derive(Clone, Copy, Debug)]
pub struct Shape {
    pub nets: u32,
    pub odds: u32,
}

/// The set of the values whose bits are set in a number from 1 to 14.
#[tactic(auto, using(mv_cover::proofs::Points::one_some))]
fn drawn_set(random: &mut Pcg32) -> ValueSet
    ensures { nat_eq result empty ≡ false }
{
    let bits = random.next_word() % 14 + 1;
    let mut set = ValueSet::empty();
    for value in 0..VALUES {
        if (bits >> value) & 1 == 1 {
            set = set.join(ValueSet::one(Value(value)));
        }
    }
    if set == ValueSet::empty() {
        return ValueSet::one(Value(0));
    }
    set
}

/// A literal on the net, or none, at the odds in `shape`.
fn drawn_literal(
    alloc: Global,
    random: &mut Pcg32,
    shape: Shape,
    net: u32,
) -> Result<Option<Lit>, Memory>
    ensures net { IfOk result (λ drawn. IfSome drawn (λ l. l.net.0 ≡ net)) }
    ensures some { IfOk result (λ drawn. IfSome drawn (λ l. nat_eq l.set empty ≡ false)) }
{
    if random.next_word() % 8 >= shape.odds {
        return Ok(None);
    }
    let set = drawn_set(random);
    Ok(Some(Lit::new(alloc, NetId(net), set)?))
}

/// A cube of this shape.
#[tactic(auto, using(mv_cover::proofs::Building::built))]
fn drawn_cube(alloc: Global, random: &mut Pcg32, shape: Shape) -> Result<Cube, Memory>
    ensures { IfOk result (λ cube. list_all (λ l. nat_lt l.net.0 shape.nets) cube ≡ true) }
{
    let mut lits = Items::new(alloc);
    for net in 0..shape.nets {
        let drawn = drawn_literal(alloc, random, shape, net)?;
        if let Some(l) = drawn {
            lits.push(l)?;
        }
    }
    Cube::new(alloc, lits.as_slice())
}

/// So many lines with cubes of this shape, each with one value as its output.
pub fn drawn_lines(
    alloc: Global,
    random: &mut Pcg32,
    shape: Shape,
    size: u32,
) -> Result<Items<Line>, Memory>
    ensures { IfOk result (λ lines. lines_below shape.nets lines ≡ true) }
{
    let mut lines = Items::new(alloc);
    'drawing: for _ in 0..size {
        let cube = drawn_cube(alloc, random, shape)?;
        let value = Value((random.next_word() % 4) as u16);
        let out = PackedSet::new(alloc, ValueSet::one(value))?;
        lines.push(Line { cube, out })?;
    }
    Ok(lines)
}
