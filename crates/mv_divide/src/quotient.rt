ghost use Rattle.std.specs.Prelude.{◌≡◌, ◌<◌, IfOk, length};
ghost use Rattle.mv_divide.specs.Division.{IsQuotient};
ghost use Rattle.mv_divide.specs.Tables.{AreQuotients};

use crate::Part;
use mv_base::{Items, Memory, PackedSet};
use mv_cover::Cube;
use std::alloc::Global;

/// The quotient of the cover of an output set.
#[derive(Drop)]
pub struct Quotient {
    pub out: PackedSet,
    pub cubes: Items<Cube>,
}

/// The quotients of the covers of a table by the divisor.
pub fn quotients(alloc: Global, parts: &[Part], divisor: &[Cube]) -> Result<Vec<Quotient>, Memory>
    requires { 0 < length divisor.now }
    ensures { IfOk result (λ quotients. AreQuotients parts.now divisor.now quotients.items) }
{
    let mut quotients = Vec::new(alloc);
    for part in parts {
        quotients.push(quotient_of(part, divisor)?)?;
    }
    Ok(quotients)
}

/// The quotient of the cover by the divisor.
fn quotient_of(part: &Part, divisor: &[Cube]) -> Result<Quotient, Memory>
    requires { 0 < length divisor.now }
    ensures out { IfOk result (λ quotient. quotient.out ≡ part.now.out) }
    ensures cubes { IfOk result (λ quotient. IsQuotient part.now.cover divisor.now quotient.cubes) }
{
    let cubes = Items::of(part.cover.quotient(divisor)?);
    let out = part.out.copy()?;
    Ok(Quotient { out, cubes })
}
