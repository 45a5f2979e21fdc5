//! The way of a search: an order of the nets in which those of a part stand together, each behind those of its fanins of
//! which more than one value is left.
ghost use Rattle.std.specs.Prelude.{◌≡◌, ◌≤◌, ◌||◌, ℕ, length, slice_index};
ghost use Rattle.std.specs.List.{list_all};
ghost use Rattle.mv_graph.specs.Sorting.{net_at};
ghost use Rattle.mv_net.specs.Order.{IsOrder};
ghost use Rattle.mv_solve.specs.Asked.{asked_of};
ghost use Rattle.mv_solve.specs.Known.{is_only, HasPlaces};
ghost use Rattle.mv_solve.specs.Put.{stands, ArePut};
ghost use Rattle.mv_solve.specs.Way.{IsWay};

use crate::Asked;
use crate::known::known_of;
use mv_base::NetId;
use mv_net::Network;

/// The net at a place.
fn net_at(way: &[NetId], place: usize) -> NetId
    ensures { result.0 ≡ net_at way.now place }
{
    match way.get(place) {
        Some(n) => *n,
        None => NetId(0),
    }
}

/// The place that is noted of a net.
fn place_of(places: &[usize], n: NetId) -> usize
    ensures { result ≡ slice_index places.now n.0 }
{
    match places.get(n.0 as usize) {
        Some(place) => *place,
        None => 0,
    }
}

/// Whether the net stands at the place that is noted of it, from `start` on and below `end`.
fn stands(way: &[NetId], places: &[usize], n: NetId, start: usize, end: usize) -> bool
    ensures { result ≡ stands way.now places.now start end n.0 }
{
    let place = place_of(places, n);
    start <= place && place < end && net_at(way, place) == n
}

/// Whether all these nets stand so, but for those of which one value is known.
fn all_stand(
    known: &[Asked],
    way: &[NetId],
    places: &[usize],
    nets: &[NetId],
    start: usize,
    end: usize,
) -> bool
    ensures { result ≡ list_all
        (λ m. is_only (asked_of known.now m.0) || stands way.now places.now start end m.0) nets.now }
{
    nets.iter().all(|m| known_of(known, *m).is_only() || stands(way, places, *m, start, end))
}

/// Puts the nets of a part, from the first on, at the places from `start` on, and answers the place behind.
fn put_part(
    net: &Network,
    known: &[Asked],
    nexts: &[Option<NetId>],
    way: &mut [NetId],
    starts: &mut [usize],
    places: &mut [usize],
    first: NetId,
    start: usize,
) -> usize
    requires put { ArePut net.now.nets known.now way.old starts.old places.old start }
    requires room { HasPlaces net.now.nets places.old }
    requires long { length nexts.now ≡ length places.old }
    ensures { ArePut net.now.nets known.now way.new starts.new places.new result }
{
    let mut next = Some(first);
    let mut end = start;
    while end < way.len() {
        let Some(n) = next else {
            return end;
        };
        if !net.holds(n) || stands(way, places, n, 0, end) {
            return end;
        }
        if !all_stand(known, way, places, net.fanins(n), start, end) {
            return end;
        }
        way[end] = n;
        starts[end] = start;
        places[n.0 as usize] = end;
        end += 1;
        next = nexts[n.0 as usize];
    }
    end
}

/// Puts the nets of all parts, in the order of their first nets, and answers the place behind.
fn put_parts(
    net: &Network,
    order: &[NetId],
    known: &[Asked],
    nexts: &[Option<NetId>],
    way: &mut [NetId],
    starts: &mut [usize],
    places: &mut [usize],
) -> usize
    requires long { length starts.old ≡ length way.old }
    requires room { HasPlaces net.now.nets places.old }
    requires nexts { length nexts.now ≡ length places.old }
    ensures { ArePut net.now.nets known.now way.new starts.new places.new result }
{
    let mut end = 0;
    for n in order {
        if !stands(way, places, *n, 0, end) {
            end = put_part(net, known, nexts, way, starts, places, *n, end);
        }
    }
    end
}

/// Whether all these nets stand below `end`.
fn all_put(way: &[NetId], places: &[usize], nets: &[NetId], end: usize) -> bool
    ensures { result ≡ list_all (λ m. stands way.now places.now 0 end m.0) nets.now }
{
    nets.iter().all(|m| stands(way, places, *m, 0, end))
}

/// All places are of one part, which starts at the first.
pub fn start_once(starts: &mut [usize])
    ensures { (place : ℕ) → slice_index starts.new place ≡ 0 }
{
    for place in 0..starts.len() {
        starts[place] = 0;
    }
}

/// Finds the way. Where the nets of the parts aren't put one by one it is the order, as one part.
pub fn find_way(
    net: &Network,
    order: &[NetId],
    known: &[Asked],
    nexts: &[Option<NetId>],
    way: &mut [NetId],
    starts: &mut [usize],
    places: &mut [usize],
)
    requires order { IsOrder net.now.nets order.now }
    requires way { length way.old ≡ length order.now }
    requires starts { length starts.old ≡ length order.now }
    requires room { HasPlaces net.now.nets places.old }
    requires nexts { length nexts.now ≡ length places.old }
    ensures { IsWay net.now.nets way.new starts.new known.now }
{
    let end = put_parts(net, order, known, nexts, way, starts, places);
    if end < way.len() || !all_put(way, places, order, end) {
        way.copy_from_slice(order);
        start_once(starts);
    }
}
