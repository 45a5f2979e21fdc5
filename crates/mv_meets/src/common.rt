ghost use Rattle.std.specs.Prelude.{◌≡◌, IfOk};
ghost use Rattle.mv_kernels.specs.Symbols as symbols;
ghost use Rattle.mv_meets.specs.Meets as spec;

use mv_base::Memory;
use mv_cover::{Cube, Lit};
use smallvec::SmallVec;
use std::alloc::Global;

/// The symbols of a that b has too.
pub fn common(alloc: Global, a: &Cube, b: &Cube) -> Result<Cube, Memory>
    ensures { IfOk result (λ cube. cube ≡ spec.common a.now b.now) }
{
    let mut shared = SmallVec::new(alloc);
    for literal in a.lits() {
        if has_symbol(b.lits(), literal) {
            shared.push(literal.copy()?)?;
        }
    }
    Ok(Cube::of(shared))
}

/// Whether the literals have the symbol.
fn has_symbol(literals: &[Lit], symbol: &Lit) -> bool
    ensures { result ≡ symbols.has_symbol literals.now symbol.now }
{
    literals.contains(symbol)
}
