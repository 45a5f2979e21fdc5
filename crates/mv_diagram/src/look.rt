ghost use Rattle.std.specs.Prelude.{◌≡◌, ℕ, true};
ghost use Rattle.std.specs.Bool.{OnTrue, OnFalse};
ghost use Rattle.mv_diagram.specs.Sets.{Point, InRange, holds, has_diagram};
ghost use Rattle.mv_diagram.specs.Sound.{IsReduced};
ghost use Rattle.mv_diagram.specs.Diagrams.{IsPoint, point_of};

use crate::Dd;
use crate::node::{ONE, ZERO};
use crate::table::{Table, node};
use mv_base::Value;

/// Whether the point is in the diagram: its tests are followed.
pub fn contains(table: &Table, d: Dd, point: &[Value]) -> bool
    requires sound { IsReduced table.now.counts.items table.now.pool.places }
    requires held { has_diagram table.now.pool.places d.0 ≡ true }
    requires point { IsPoint table.now.counts.items point.now }
    ensures { result ≡ holds table.now.counts.items table.now.pool.places d.0 (point_of point.now) }
{
    let mut at = d;
    while let Some(next) = node(table, at) {
        let value = point[next.test.var as usize];
        at = if value.0 == next.test.value {
            next.yes
        } else {
            next.no
        };
    }
    at == ONE
}

/// Sets the point to one of the diagram, or answers false where it has none. The recursion is as deep as there are
/// tests in their order.
pub fn pick_in(table: &Table, d: Dd, point: &mut [Value]) -> bool
    requires sound { IsReduced table.now.counts.items table.now.pool.places }
    requires held { has_diagram table.now.pool.places d.0 ≡ true }
    requires point { IsPoint table.now.counts.items point.old }
    ensures point { IsPoint table.now.counts.items point.new }
    ensures some { OnTrue result
        (holds table.now.counts.items table.now.pool.places d.0 (point_of point.new) ≡ true) }
    ensures none { OnFalse result (d.0 ≡ 0) }
{
    let Some(node) = node(table, d) else {
        return d == ONE;
    };
    if node.yes != ZERO {
        pick_in(table, node.yes, point);
        point[node.test.var as usize] = Value(node.test.value);
        return true;
    }
    pick_in(table, node.no, point);
    if point[node.test.var as usize].0 == node.test.value {
        point[node.test.var as usize] = Value(table.counts[node.test.var as usize] - 1);
    }
    true
}
