//! The codes of the values of a net: each value in binary, in the fewest bits.
ghost use Rattle.std.specs.Prelude.{◌≡◌, ◌≤◌, IfOk};
ghost use Rattle.mv_base.specs.declared.limits.TheConstants.{MAX_CODE_BITS, MAX_VALUES};
ghost use Rattle.mv_encode.specs.Encodes as spec;
ghost use Rattle.mv_encode.specs.Encodes.{AreFewest};

use mv_base::{Items, Memory};
use mv_entry::Code;
use std::alloc::Global;

/// The fewest bits in which each of so many values has a code of its own.
pub fn fewest_bits(values: u16) -> u32
    requires { values ≤ MAX_VALUES }
    ensures fewest { AreFewest values result }
    ensures few { result ≤ MAX_CODE_BITS }
{
    let mut bits = 0;
    let mut room: u32 = 1;
    'doubling: while room < values as u32 {
        room *= 2;
        bits += 1;
    }
    bits
}

/// The codes of so many values in so many bits, ascending.
pub fn codes_of(alloc: Global, bits: u32, values: u16) -> Result<Items<Code>, Memory>
    requires { bits ≤ MAX_CODE_BITS }
    ensures { IfOk result (λ codes. codes ≡ spec.codes_of bits values) }
{
    let mut codes = Items::with_room(alloc, values as usize)?;
    for value in 0..values {
        codes.push(code_of(alloc, bits, value)?)?;
    }
    Ok(codes)
}

/// The code of a value in so many bits.
fn code_of(alloc: Global, bits: u32, value: u16) -> Result<Code, Memory>
    requires { bits ≤ MAX_CODE_BITS }
    ensures { IfOk result (λ code. code ≡ spec.code_of bits value) }
{
    let mut digits = Items::with_room(alloc, bits as usize)?;
    let mut left = bits;
    'digits: while left > 0 {
        left -= 1;
        digits.push((value >> left) & 1 == 1)?;
    }
    Ok(Code { bits: digits })
}
