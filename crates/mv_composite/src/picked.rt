ghost use Rattle.std.specs.Prelude.{◌≡◌, [], IfOk};
ghost use Rattle.mv_cover.specs.Absorb.{firsts};

use crate::taker::Taker;
use indexmap::IndexSet;
use mv_base::Memory;
use mv_cover::{Absorber, Line};
use std::alloc::Global;

/// The lines that are left of those taken that are among others.
#[derive(Drop)]
pub struct Picked {
    pub left: Absorber,
    others: IndexSet<Line>,
}

impl Picked {
    /// None taken yet. These are the others.
    pub fn new(alloc: Global, others: &[Line]) -> Result<Picked, Memory>
        ensures left { IfOk result (λ picked. picked.left ≡ []) }
        ensures others { IfOk result (λ picked. picked.others.keys ≡ firsts others.now) }
    {
        Ok(Picked {
            left: Absorber::new(alloc),
            others: line_set(alloc, others)?,
        })
    }
}

impl Taker for Picked {
    ghost use Rattle.mv_composite.specs.Takers.{TakesPicked};
    ghost use Rattle.mv_composite.specs.TakerLaws.{takes_picked_none, takes_picked_more};

    ghost takes = { λ a b more. TakesPicked a.others.keys b.others.keys a.left b.left more };

    ghost takes_none = { λ a. takes_picked_none a.others.keys a.left };

    ghost takes_more = { λ a b c xs ys p q. takes_picked_more a.others.keys b.others.keys c.others.keys a.left b.left c.left xs ys p q };

    fn take(&mut self, line: Line) -> Result<(), Memory> {
        if !self.others.contains(&line) {
            return Ok(());
        }
        self.left.put(line)
    }
}

/// The set of the lines.
fn line_set(alloc: Global, lines: &[Line]) -> Result<IndexSet<Line>, Memory>
    ensures { IfOk result (λ set. set.keys ≡ firsts lines.now) }
{
    let mut set = IndexSet::new(alloc);
    for line in lines {
        set.insert(line.copy()?)?;
    }
    Ok(set)
}
