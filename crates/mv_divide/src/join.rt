ghost use Rattle.std.specs.Prelude.{◌≡◌};
ghost use Rattle.mv_cover.specs.Equal.{cube_eq};
ghost use Rattle.mv_kernels.specs.Symbols as symbols_of;
ghost use Rattle.mv_divide.specs.Found as spec;

use mv_cover::{Cube, Lit};
use mv_kernels::has_each;

/// Whether the cube has each symbol of d, and without them is s. It takes no memory.
pub fn is_join(s: &Cube, d: &Cube, cube: &Cube) -> bool
    ensures { result ≡ spec.is_join s.now d.now cube.now }
{
    has_each(d.lits(), cube.lits()) && is_left(d.lits(), cube.lits(), s.lits())
}

/// Whether the literals without these symbols are the others.
fn is_left(symbols: &[Lit], lits: &[Lit], others: &[Lit]) -> bool
    ensures { result ≡ cube_eq (symbols_of.cube_quotient symbols.now lits.now) others.now }
{
    let mut at = 0;
    for literal in lits {
        if !symbols.contains(literal) {
            let Some(other) = others.get(at) else {
                return false;
            };
            if *literal != *other {
                return false;
            }
            at += 1;
        }
    }
    at == others.len()
}

/// Whether the cube has no symbol of any cube of the divisor.
pub fn all_apart(divisor: &[Cube], s: &Cube) -> bool
    ensures { result ≡ spec.all_apart divisor.now s.now }
{
    divisor.iter().all(|d| is_apart(d.lits(), s.lits()))
}

/// Whether the literals have none of the symbols.
fn is_apart(symbols: &[Lit], lits: &[Lit]) -> bool
    ensures { result ≡ spec.is_apart symbols.now lits.now }
{
    lits.iter().all(|literal| !symbols.contains(literal))
}
