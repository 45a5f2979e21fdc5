ghost use Rattle.std.specs.Prelude.{◌≡◌, ◌++◌, IfOk, OnOk};
ghost use Rattle.mv_script.specs.Parts.{MayStand, IsBalanced, depth_behind, kinds, outside, outermost};

use crate::part::{Part, PartKind};
use mv_base::{Items, Memory};
use std::alloc::Global;

/// How many braces are open behind the part.
fn depth_behind(kind: &PartKind, depth: u64) -> u64
    requires { MayStand kind.now depth }
    ensures { result ≡ depth_behind kind.now depth }
{
    match kind {
        PartKind::Do(_) => depth,
        PartKind::Open(_) => depth + 1,
        PartKind::Close => depth - 1,
    }
}

/// Adds the place of the part, if it stands where no brace is open.
fn put_outside(part: &Part, depth: u64, places: &mut Items<u64>) -> Result<(), Memory>
    ensures { OnOk result (places.new ≡ places.old ++ outside part.now depth) }
{
    if depth == 0 {
        places.push(part.place)?;
    }
    Ok(())
}

/// The places of the items that stand in no braces.
#[tactic(auto, using(crate::proofs::Places::places))]
pub fn outermost(alloc: Global, parts: &[Part]) -> Result<Items<u64>, Memory>
    requires { IsBalanced (kinds parts.now) 0 }
    ensures { IfOk result (λ places. places ≡ outermost parts.now 0) }
{
    let mut places = Items::new(alloc);
    let mut depth = 0;
    for part in parts {
        put_outside(part, depth, &mut places)?;
        depth = depth_behind(&part.kind, depth);
    }
    Ok(places)
}
