ghost use Rattle.std.specs.Prelude.{◌≡◌, ◌+◌, ◌*◌, ◌<◌, ◌≤◌, false, is_some, length, IsTrue, IfErr, OnErr, OnOk};
ghost use Rattle.mv_diagram.specs.Sets.{Point};
ghost use Rattle.mv_factors.specs.Families.{set_at};
ghost use Rattle.mv_flex.specs.Flex.{IsWindowOf};
ghost use Rattle.mv_net.specs.Nets.{slot, table_in};
ghost use Rattle.mv_wide.specs.Wides.{IsFramed, IsReady, IsStopIn, IsWide};

use crate::frame::{Frame, frame_of};
use crate::outside::put_outside;
use crate::plan::plan_of;
use mv_base::{Memory, NetId};
use mv_factors::{Elimination, Factors};
use mv_net::{Network, Window};
use mv_relation::RelationStop;
use std::alloc::Global;

/// Lets the frame be a new one, with an empty first set, and room for the relations of so many tables.
fn restart(
    alloc: Global,
    factors: &mut Factors,
    elimination: &mut Elimination,
    frame: &mut Frame,
    new: Frame,
    room: usize,
) -> Result<(), Memory>
    requires ready { IsReady factors.old frame.old }
    requires new { IsFramed new }
    requires room { 5 ≤ room }
    ensures ready { IsReady factors.new frame.new }
    ensures cap { factors.new.contents.cap ≡ factors.old.contents.cap }
    ensures frame { OnOk result (frame.new ≡ new) }
    ensures long { OnOk result (length factors.new.list ≡ 1) }
    ensures none { OnOk result ((p : Point) → set_at factors.new 0 p ≡ false) }
    ensures room { OnOk result (room ≤ factors.new.room) }
    ensures places { OnOk result (elimination.new.places ≡ factors.new.room) }
    ensures vars { OnOk result (elimination.new.vars ≡ length factors.new.contents.counts) }
{
    match factors.restart(new.counts.as_slice(), room) {
        Ok(()) => {}
        Err(stop) => return Err(stop),
    }
    *frame = new;
    factors.add_none();
    elimination.reserve(alloc, factors)
}

/// Lets the frame be that of a net with a table in a window around it, and the first set that of the points whose pairs are
/// outside its flexibility.
pub fn find_in(
    alloc: Global,
    factors: &mut Factors,
    elimination: &mut Elimination,
    frame: &mut Frame,
    net: &Network,
    w: &Window,
    n: NetId,
) -> Result<(), RelationStop>
    requires table { IsTrue (is_some (table_in (slot net.now.nets n.0))) }
    requires window { IsWindowOf net.now n.0 w.now }
    requires ready { IsReady factors.old frame.old }
    ensures ready { IsReady factors.new frame.new }
    ensures cap { factors.new.contents.cap ≡ factors.old.contents.cap }
    ensures ok { OnOk result
        (IsWide net.now w.now n.0 (record { family = factors.new; frame = frame.new })) }
    ensures stop { IfErr result (IsStopIn net.now.nets w.now factors.old.contents.cap) }
{
    net.well_formed();
    // how many nets there are at most
    net.few();
    let new = match frame_of(alloc, net, w, n) {
        Ok(new) => new,
        Err(Memory) => return Err(RelationStop::Memory),
    };
    let plan = match plan_of(alloc, net, w, n, &new) {
        Ok(plan) => plan,
        Err(Memory) => return Err(RelationStop::Memory),
    };
    let tables = w.tables.len();
    let room = 3 * tables + 5;
    match restart(alloc, factors, elimination, frame, new, room) {
        Ok(()) => {}
        Err(Memory) => return Err(RelationStop::Memory),
    }
    put_outside(factors, elimination, net, w, n, frame, &plan)
}
