ghost use Rattle.std.specs.Prelude.{◌≡◌, ◌+◌, ◌<◌, ◌≤◌, ◌^◌, length, All, IfOk};
ghost use Rattle.mv_base.specs.declared.limits.TheConstants.{MAX_CODE_BITS, MAX_NETS, MAX_VALUES};
ghost use Rattle.mv_codes.specs.Codes as spec;
ghost use Rattle.mv_codes.specs.Codes.{AreCodes, bits_in};
ghost use Rattle.mv_codes.specs.Tables.{coding_of};
ghost use Rattle.mv_codes.specs.Rewriting.{IsCoding};
ghost use Rattle.mv_entry.specs.declared.rule.Code.{Code as a_code};

use mv_base::{Items, Memory, NetId};
use mv_entry::Code;
use std::alloc::Global;

/// How the values of a net are encoded: by so many nets of two values, the first of which has the highest bit of a code. For
/// each code, by its number, it holds the value that the code counts as.
#[derive(Drop)]
pub struct Coding {
    pub net: NetId,
    pub first: NetId,
    pub bits: u32,
    pub values: Items<u16>,
}

impl Coding {
    /// The coding of the net's values by these codes, one for each value. The bits are the nets from `first` on.
    pub fn new(alloc: Global, net: NetId, first: NetId, codes: &[Code]) -> Result<Coding, Memory>
        requires codes { AreCodes (length codes.now) (bits_in codes.now) codes.now }
        requires values { length codes.now ≤ MAX_VALUES }
        requires low { first.0 ≤ MAX_NETS }
        ensures coding { IfOk result (λ coding. coding ≡ coding_of net.0 first.0 codes.now) }
        ensures formed { IfOk result (λ coding. IsCoding coding) }
    {
        let bits = codes[0].bits.len();
        let values = code_values(alloc, codes, bits)?;
        Ok(Coding {
            net,
            first,
            bits: bits as u32,
            values,
        })
    }
}

/// The value that each code of so many bits counts as, by its number.
fn code_values(alloc: Global, codes: &[Code], bits: usize) -> Result<Items<u16>, Memory>
    requires some { 0 < length codes.now }
    requires values { length codes.now ≤ MAX_VALUES }
    requires long { All (λ (c : a_code). length c.bits ≡ bits) codes.now }
    requires few { bits ≤ MAX_CODE_BITS }
    ensures { IfOk result (λ values. values ≡ spec.code_values codes.now bits) }
{
    let mut place = codes.len() - 1;
    let mut values = vec![in alloc; place as u16; 1 << bits]?;
    'back: while place > 0 {
        place -= 1;
        let number = bits_number(codes[place].bits.as_slice());
        values[number] = place as u16;
    }
    Ok(Items::of(values))
}

/// The number of the bits, the first the highest.
fn bits_number(bits: &[bool]) -> usize
    requires { length bits.now ≤ MAX_CODE_BITS }
    ensures value { result ≡ spec.bits_number bits.now }
    ensures low { result < 2 ^ length bits.now }
{
    let mut number = 0;
    for bit in bits {
        number = 2 * number + usize::from(*bit);
    }
    number
}
