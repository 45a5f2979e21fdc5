ghost use Rattle.std.specs.Prelude.{◌≤◌, length, IfOk};
ghost use Rattle.mv_net.specs.Formed.{WellFormed};
ghost use Rattle.mv_net.specs.Kept.{AreKept};

use crate::NetParts;
use crate::fanins::fanins_of;
use crate::made::raised;
use crate::names::{NameIndex, names_of};
use crate::seen::seen_of;
use crate::tallies::{Tallies, tallies_of};
use mv_base::{Items, MAX_NETS, Memory};
use mv_dag::Dag;
use std::alloc::Global;

/// What is looked up in a network, by number or by name, and the graph of who reads whom. Nets have all made names with
/// positive numbers up to `made`.
#[derive(Drop)]
pub struct Kept {
    pub tallies: Tallies,
    pub graph: Dag,
    pub names: NameIndex,
    pub seen: Items<bool>,
    pub made: u32,
}

/// What is kept for these parts.
#[tactic(auto, using(crate::proofs::Known::known))]
pub fn kept_of(alloc: Global, parts: &NetParts) -> Result<Kept, Memory>
    requires formed { WellFormed parts.now }
    requires few { length parts.now.nets ≤ MAX_NETS }
    ensures { IfOk result (λ kept. AreKept parts.now kept) }
{
    let nets = parts.nets.as_slice();
    let fanins = fanins_of(alloc, nets)?;
    let graph = Dag::of(alloc, fanins)?;
    let names = names_of(alloc, nets)?;
    let made = raised(alloc, &names, 0)?;
    let seen = seen_of(alloc, parts)?;
    let tallies = tallies_of(alloc, nets)?;
    Ok(Kept {
        tallies,
        graph,
        names,
        seen,
        made,
    })
}
