//! Names for nets that are made.
ghost use Rattle.std.specs.Prelude.{◌≡◌, ◌+◌, ◌<◌, ◌^◌, length, IfOk};
ghost use Rattle.mv_flat.specs.Marks.{IsNext};

use mv_acyclic::Numbers;
use mv_base::{Memory, Name};
use mv_net::made_name;
use std::alloc::Global;

/// The name of a made net, and its number.
#[derive(Drop)]
pub struct Made {
    pub number: u32,
    pub name: Name,
}

/// The made name with the least number behind the last whose name no net of the file has.
#[tactic(auto, using(crate::proofs::MadeNames::next))]
pub fn next_made(alloc: Global, names: &Numbers, last: u32) -> Result<Made, Memory>
    requires { last + length names.now + 2 < 2 ^ 32 }
    ensures { IfOk result (λ made. IsNext names.now last made.number made.name) }
{
    for number in last + 1..u32::MAX {
        let name = made_name(alloc, u64::from(number))?;
        if names.place(&name).is_none() {
            return Ok(Made { number, name });
        }
    }
    unreachable!()
}
