ghost use Rattle.std.specs.Prelude.{MatchBool, slice_index};
ghost use Rattle.mv_net.specs.Order.{IsOrder};
ghost use Rattle.mv_solve.specs.Asked.{IsSolution, NoSolution};
ghost use Rattle.mv_solve.specs.Way.{IsRoomy};

use crate::Asked;
use crate::parts::{find_parts, link_parts};
use crate::search::search;
use crate::spread::{give_known, spread};
use crate::way::{find_way, start_once};
use mv_base::NetId;
use mv_net::Network;

/// Looks for a solution: whether there is one, and then the values are it. Where a choice is to be taken back, what is asked
/// is spread to more nets, and then the parts that are left are searched, one behind the other.
pub fn find(
    net: &Network,
    order: &[NetId],
    asked: &[Asked],
    known: &mut [Asked],
    marks: &mut [bool],
    bounds: &mut [usize],
    values: &mut [u16],
    heads: &mut [Option<NetId>],
    nexts: &mut [Option<NetId>],
    way: &mut [NetId],
    starts: &mut [usize],
    places: &mut [usize],
) -> bool
    requires order { IsOrder net.now.nets order.now }
    requires room { IsRoomy order.now asked.now known.old marks.old bounds.old values.old heads.old
        nexts.old way.old starts.old places.old }
    ensures { MatchBool result
        (IsSolution net.now.nets order.now asked.now (slice_index values.new))
        (NoSolution net.now.nets order.now asked.now) }
{
    give_known(asked, values);
    start_once(starts);
    if let Some(found) = search(net, order, starts, asked, marks, bounds, values, false) {
        return found;
    }
    spread(net, order, asked, known);
    give_known(known, values);
    find_parts(net, order, known, places);
    link_parts(order, places, heads, nexts);
    find_way(net, order, known, nexts, way, starts, places);
    match search(net, way, starts, known, marks, bounds, values, true) {
        Some(found) => found,
        None => false,
    }
}
