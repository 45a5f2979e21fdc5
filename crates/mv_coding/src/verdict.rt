ghost use Rattle.std.specs.Prelude.{◌≡◌, ◌↔◌, length, All, IsTrue, MatchBool};
ghost use Rattle.std.specs.List.{list_any};
ghost use Rattle.mv_codes.specs.Codes.{AreCodes, code_eq, codes_differ};
ghost use Rattle.mv_entry.specs.declared.rule.Code.{Code as a_code};

use mv_base::MAX_CODE_BITS;
use mv_entry::Code;

/// The fewest values of a net that can be encoded.
const FEWEST: u16 = 3;

/// Whether these are codes of so many bits for so many values: three values or more, one code for each, no two equal, and at
/// most `MAX_CODE_BITS` bits. No memory.
pub fn are_codes(values: u16, bits: usize, codes: &[Code]) -> bool
    ensures { MatchBool result (AreCodes values bits codes.now)
        (AreCodes values bits codes.now → ⊥) }
{
    if values < FEWEST || codes.len() != values as usize {
        return false;
    }
    if bits as u64 > MAX_CODE_BITS {
        return false;
    }
    if !all_have(bits, codes) {
        return false;
    }
    all_differ(codes)
}

/// Whether each code has so many bits.
fn all_have(bits: usize, codes: &[Code]) -> bool
    ensures { IsTrue result ↔ All (λ (c : a_code). length c.bits ≡ bits) codes.now }
{
    codes.iter().all(|code| code.bits.len() == bits)
}

/// Whether no code is equal to a later one.
fn all_differ(codes: &[Code]) -> bool
    ensures { result ≡ codes_differ codes.now }
{
    let mut rest = codes;
    'looking: while let [code, others @ ..] = rest {
        if is_among(code, others) {
            return false;
        }
        rest = others;
    }
    true
}

/// Whether the code is equal to one of these.
fn is_among(code: &Code, others: &[Code]) -> bool
    ensures { result ≡ list_any (code_eq code.now) others.now }
{
    others.iter().any(|other| have_same_bits(code, other))
}

/// Whether the codes have the same bits.
fn have_same_bits(a: &Code, b: &Code) -> bool
    ensures { result ≡ code_eq a.now b.now }
{
    a.bits.as_slice() == b.bits.as_slice()
}
