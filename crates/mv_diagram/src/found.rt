ghost use Rattle.std.specs.Prelude.{◌≡◌, ◌≤◌, ◌<◌, ℕ, true, false, length, vec_capacity};
ghost use Rattle.mv_pool.specs.Walks.{mark};
ghost use Rattle.mv_diagram.specs.Found.{AreFound, ArePlaced, AreSeen};
ghost use Rattle.mv_diagram.specs.Sets.{has_diagram};
ghost use Rattle.mv_diagram.specs.Sound.{IsReduced};

use crate::Dd;
use crate::table::{Table, node};
use mv_pool::Id;

/// Lists the places of the nodes of a diagram, each once, within the room that is there. The time grows with all places.
/// It answers how many there are.
pub fn find(table: &mut Table, found: &mut Vec<u32>, d: Dd) -> u32
    requires sound { IsReduced table.old.counts.items table.old.pool.places }
    requires held { has_diagram table.old.pool.places d.0 ≡ true }
    requires room { table.old.pool.cap ≤ vec_capacity found.old }
    ensures counts { table.new.counts ≡ table.old.counts }
    ensures same { table.new.pool ≡ table.old.pool }
    ensures found { AreFound table.old.pool.places d found.new.items }
    ensures count { result ≡ length found.new.items }
    ensures room { vec_capacity found.old ≤ vec_capacity found.new }
{
    let _places = table.pool.len();
    match d.place() {
        Some(id) => {
            table.pool.reached(&[id], found);
            found.len() as u32
        }
        None => {
            found.clear();
            0
        }
    }
}

/// Takes all marks away.
fn clear(seen: &mut [bool])
    ensures long { length seen.new ≡ length seen.old }
    ensures none { (v : ℕ) → mark seen.new v ≡ false }
{
    for var in 0..seen.len() {
        seen[var] = false;
    }
}

/// Marks the variables that the nodes at these places test, and no others.
pub fn mark_tested(table: &Table, found: &[u32], seen: &mut [bool])
    requires sound { IsReduced table.now.counts.items table.now.pool.places }
    requires found { ArePlaced table.now.pool.places found.now }
    requires long { length seen.old ≡ length table.now.counts.items }
    ensures long { length seen.new ≡ length table.now.counts.items }
    ensures seen { AreSeen table.now.pool.places found.now (length found.now) seen.new }
{
    clear(seen);
    for place in found {
        if let Some(node) = node(table, Dd::at(Id(*place))) {
            seen[node.test.var as usize] = true;
        }
    }
}
