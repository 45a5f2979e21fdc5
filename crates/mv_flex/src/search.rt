ghost use Rattle.std.specs.Prelude.{◌≡◌, length, IfOk, OnOk, MatchBool};
ghost use Rattle.mv_flex.specs.Spaces.{AreBelow};
ghost use Rattle.mv_flex.specs.Plans.{counts_of, point_at, IsPairAt, IsStart, IsStuck, IsBadPair, IsReady, Adds, MarksBad};
ghost use Rattle.mv_flex.specs.Truths.{IsAsked};

use crate::asked::Asked;
use crate::plan::Plan;
use mv_base::{Items, Memory};
use mv_net::Network;

/// Marks for the pairs of the points that agree with every table but the net's own, at inputs and outputs at which no point
/// agrees with all.
pub fn outside_pairs(net: &Network, plan: &Plan) -> Result<Items<bool>, Memory>
    requires { IsReady net.now.nets plan.now }
    ensures { IfOk result (λ marks. MarksBad net.now.nets plan.now marks) }
{
    let alloc = plan.nets.allocator();
    let asked = Asked::by(net, plan)?;
    let mut marks = vec![in alloc; false; plan.pairs.size() as usize]?;
    let mut start = Vec::new(alloc);
    plan.shown.put(0, &mut start)?;
    let mut values = Vec::new(alloc);
    for shown in 0..plan.shown.size() {
        let first = start.as_slice();
        mark_at(net, plan, &asked, first, &mut values, &mut marks)?;
        plan.shown.counted();
        plan.shown.step(0, &mut start);
    }
    Ok(Items::of(marks))
}

/// Puts marks for the pairs at these inputs and outputs.
fn mark_at(
    net: &Network,
    plan: &Plan,
    asked: &Asked,
    start: &[u16],
    values: &mut Vec<u16>,
    marks: &mut Vec<bool>,
) -> Result<(), Memory>
    requires ready { IsReady net.now.nets plan.now }
    requires asked { IsAsked net.now.nets plan.now asked.now }
    requires start { IsStart plan.now start.now }
    requires long { length marks.old.items ≡ plan.now.pairs.size }
    ensures { OnOk result
        (Adds (IsBadPair net.now.nets plan.now start.now) marks.old.items marks.new.items) }
{
    if is_stuck(net, plan, asked, start, values)? {
        return mark_stuck(net, plan, asked, start, values, marks);
    }
    Ok(())
}

/// Whether at these inputs and outputs no point agrees with every table.
fn is_stuck(
    net: &Network,
    plan: &Plan,
    asked: &Asked,
    start: &[u16],
    values: &mut Vec<u16>,
) -> Result<bool, Memory>
    requires ready { IsReady net.now.nets plan.now }
    requires asked { IsAsked net.now.nets plan.now asked.now }
    requires start { IsStart plan.now start.now }
    ensures { IfOk result (λ stuck. MatchBool stuck
        (IsStuck net.now.nets plan.now start.now)
        (IsStuck net.now.nets plan.now start.now → ⊥)) }
{
    put_first(plan, start, values)?;
    for hidden in 0..plan.hidden.size() {
        let point = values.as_slice();
        if asked.all_agree(net, plan, point) {
            return Ok(false);
        }
        plan.hidden.counted();
        plan.hidden.step(start.len(), values);
    }
    Ok(true)
}

/// Puts marks for the pairs of the points at these inputs and outputs that agree with every table but the net's own.
fn mark_stuck(
    net: &Network,
    plan: &Plan,
    asked: &Asked,
    start: &[u16],
    values: &mut Vec<u16>,
    marks: &mut Vec<bool>,
) -> Result<(), Memory>
    requires ready { IsReady net.now.nets plan.now }
    requires asked { IsAsked net.now.nets plan.now asked.now }
    requires start { IsStart plan.now start.now }
    requires long { length marks.old.items ≡ plan.now.pairs.size }
    requires stuck { IsStuck net.now.nets plan.now start.now }
    ensures { OnOk result
        (Adds (IsBadPair net.now.nets plan.now start.now) marks.old.items marks.new.items) }
{
    put_first(plan, start, values)?;
    for hidden in 0..plan.hidden.size() {
        let point = values.as_slice();
        mark_point(net, plan, asked, point, marks);
        plan.hidden.counted();
        plan.hidden.step(start.len(), values);
    }
    Ok(())
}

/// Puts a mark for the pair of a point where every table but the net's own agrees.
fn mark_point(net: &Network, plan: &Plan, asked: &Asked, point: &[u16], marks: &mut Vec<bool>)
    requires asked { IsAsked net.now.nets plan.now asked.now }
    requires point { AreBelow (counts_of net.now.nets plan.now.nets) point.now }
    requires long { length marks.old.items ≡ plan.now.pairs.size }
    ensures { Adds (IsPairAt net.now.nets plan.now point.now) marks.old.items marks.new.items }
{
    if !asked.others_agree(net, plan, point) {
        return;
    }
    let places = asked.places.as_slice();
    let pair = plan.pairs.number(places, point);
    marks[pair as usize] = true;
}

/// The values of all nets at the first point at these inputs and outputs.
fn put_first(plan: &Plan, start: &[u16], values: &mut Vec<u16>) -> Result<(), Memory>
    ensures { OnOk result (values.new.items ≡ point_at plan.now start.now 0) }
{
    values.clear();
    values.extend_from_slice(start)?;
    plan.hidden.put(0, values)
}
