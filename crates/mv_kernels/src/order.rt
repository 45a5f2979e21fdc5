ghost use Rattle.std.specs.Prelude.{◌≡◌};
ghost use Rattle.mv_kernels.specs.Symbols.{SameCubes};
ghost use Rattle.mv_kernels.specs.Order.{Ascend, IsOrder, lit_cmp, cube_cmp, cubes_cmp};

use mv_cover::{Cube, Lit};
use std::cmp::Ordering;

/// The cubes in ascending order, each once.
pub fn in_order(mut cubes: Vec<Cube>) -> Vec<Cube>
    ensures ascending { Ascend result.items }
    ensures same { SameCubes result.items cubes.items }
{
    cubes.sort_unstable_by(|a, b| compare(a.lits(), b.lits()));
    cubes.dedup();
    cubes
}

/// The order of cubes: the first literals that differ decide, and else the lengths.
pub fn compare_cubes(a: &Cube, b: &Cube) -> Ordering
    ensures { result ≡ cube_cmp a.now b.now }
{
    compare(a.lits(), b.lits())
}

/// The order of lists of cubes: the first cubes that differ decide, and else the lengths.
pub fn compare_lists(a: &[Cube], b: &[Cube]) -> Ordering
    ensures { result ≡ cubes_cmp a.now b.now }
{
    for (i, cube) in a.iter().enumerate() {
        let Some(other) = b.get(i) else {
            return Ordering::Greater;
        };
        let found = compare_cubes(cube, other);
        if found != Ordering::Equal {
            return found;
        }
    }
    a.len().cmp(&b.len())
}

/// Cubes are in a total order, and so are lists of cubes; only equal ones tie.
pub fn order_laws()
    ensures cubes { IsOrder cube_cmp }
    ensures lists { IsOrder cubes_cmp }
{}

/// The order of cubes, as the lists of their literals.
fn compare(a: &[Lit], b: &[Lit]) -> Ordering
    ensures { result ≡ cube_cmp a.now b.now }
{
    for (i, l) in a.iter().enumerate() {
        let Some(m) = b.get(i) else {
            return Ordering::Greater;
        };
        let found = compare_lits(l, m);
        if found != Ordering::Equal {
            return found;
        }
    }
    a.len().cmp(&b.len())
}

/// The order of literals, by net and then by set.
fn compare_lits(a: &Lit, b: &Lit) -> Ordering
    ensures { result ≡ lit_cmp a.now b.now }
{
    a.net().0.cmp(&b.net().0).then(a.set().cmp(&b.set()))
}
