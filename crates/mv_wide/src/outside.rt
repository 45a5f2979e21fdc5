ghost use Rattle.std.specs.Prelude.{◌≡◌, ◌+◌, ◌*◌, ◌<◌, ◌≤◌, false, is_some, length, IsTrue, OnOk, IfErr};
ghost use Rattle.mv_diagram.specs.Sets.{Point};
ghost use Rattle.mv_factors.specs.Families.{Keeps, before, set_at};
ghost use Rattle.mv_flex.specs.Flex.{IsWindowOf};
ghost use Rattle.mv_net.specs.Nets.{slot, table_in};
ghost use Rattle.mv_relation.specs.Relations.{IsRelationStop};
ghost use Rattle.mv_wide.specs.Outsides.{IsOutside};
ghost use Rattle.mv_wide.specs.Plans.{IsPlan};
ghost use Rattle.mv_wide.specs.Windows.{IsFrameOf};

use crate::families::add_relations;
use crate::frame::Frame;
use crate::lacking::unite_lacking;
use crate::plan::Plan;
use mv_base::NetId;
use mv_factors::{Elimination, Factors};
use mv_net::{Network, Window};
use mv_relation::RelationStop;

/// Lets the one set of a list, which is empty, be that of the points whose pairs are outside the flexibility of a net. The relations
/// of the window's tables stand behind it, and then, from copies of these, what the inputs and outputs of the window have to
/// be like where all tables agree: each point at which the other tables agree, and one of these sets lacks the point, has a
/// pair outside.
pub fn put_outside(
    factors: &mut Factors,
    elimination: &mut Elimination,
    net: &Network,
    w: &Window,
    n: NetId,
    frame: &Frame,
    plan: &Plan,
) -> Result<(), RelationStop>
    requires table { IsTrue (is_some (table_in (slot net.now.nets n.0))) }
    requires window { IsWindowOf net.now n.0 w.now }
    requires frame { IsFrameOf net.now.nets w.now n.0 frame.now }
    requires plan { IsPlan net.now.nets w.now n.0 frame.now plan.now }
    requires counts { factors.old.contents.counts ≡ frame.now.counts.items }
    requires list { length factors.old.list ≡ 1 }
    requires none { (p : Point) → set_at factors.old 0 p ≡ false }
    requires room { 3 * length w.now.tables + 2 ≤ factors.old.room }
    requires places { 3 * length w.now.tables + 2 ≤ elimination.old.places }
    requires vars { length factors.old.contents.counts ≤ elimination.old.vars }
    ensures same { elimination.new ≡ elimination.old }
    ensures keeps { Keeps factors.old factors.new (before 0) }
    ensures some { 0 < length factors.new.list }
    ensures set { OnOk result (IsOutside net.now.nets w.now n.0 frame.now.counts.items
        frame.now.vars.items (λ p. set_at factors.new 0 p)) }
    ensures stop { IfErr result (IsRelationStop factors.new.contents) }
{
    net.well_formed();
    match add_relations(factors, net, w.tables.as_slice(), frame.vars.as_slice()) {
        Ok(()) => {}
        Err(stop) => return Err(stop),
    }
    let tables = w.tables.len();
    let place = plan.place + 1;
    let hidden = plan.hidden.as_slice();
    let beside = plan.beside.as_slice();
    match unite_lacking(factors, elimination, tables, place, hidden, beside) {
        Ok(()) => Ok(()),
        Err(stop) => Err(RelationStop::Nodes(stop)),
    }
}
