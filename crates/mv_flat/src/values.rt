//! The values of nets.
ghost use Rattle.std.specs.Prelude.{◌≡◌, ◌≤◌, All, IfOk};
ghost use Rattle.mv_base.specs.declared.limits.TheConstants.{MAX_VALUES as most_values};
ghost use Rattle.mv_design.specs.Values.{count_of};
ghost use Rattle.mv_flat.specs.Gathered.{counts_of};
ghost use Rattle.mv_flat.specs.Numbers.{are_numbers, kept_names};

use itoa::Buffer;
use mv_base::{Items, Memory, Name};
use mv_decl::Declared;
use std::alloc::Global;

/// How many values the net has.
pub fn count_of(decls: &Declared, net: &Name) -> u16
    ensures value { result ≡ count_of decls.now net.now }
    ensures few { result ≤ most_values }
{
    decls.values_of(net).len() as u16
}

/// How many values each of the nets has.
pub fn counts_of(alloc: Global, decls: &Declared, nets: &[Name]) -> Result<Vec<u16>, Memory>
    ensures counts { IfOk result (λ counts. counts.items ≡ counts_of decls.now nets.now) }
    ensures few { IfOk result (λ counts. All (λ n. n ≤ most_values) counts.items) }
{
    let mut counts = Vec::with_capacity(alloc, nets.len())?;
    for net in nets {
        counts.push(count_of(decls, net))?;
    }
    Ok(counts)
}

/// The names of values as a network keeps them: none, if they are the numbers from 0.
pub fn kept_names(alloc: Global, values: &[Name]) -> Result<Items<Name>, Memory>
    ensures { IfOk result (λ kept. kept ≡ kept_names values.now) }
{
    if are_numbers(values) {
        return Ok(Items::new(alloc));
    }
    Items::of_names(alloc, values)
}

/// Whether the names are the numbers from 0.
#[tactic(auto, using(crate::proofs::Counts::numbered))]
fn are_numbers(values: &[Name]) -> bool
    ensures { result ≡ are_numbers values.now }
{
    for (place, name) in values.iter().enumerate() {
        let mut buffer = Buffer::new();
        if name.bytes() != buffer.format(place).as_bytes() {
            return false;
        }
    }
    true
}
