//! The parts of a network that share no net of which more than one value is left: each can be searched alone. Which nets
//! are one part only decides how soon a search ends, since the way of a search is tested net by net.
ghost use Rattle.std.specs.Prelude.{◌≡◌, ◌<◌, ℕ, true, length};
ghost use Rattle.mv_graph.specs.Nets.{has_id};
ghost use Rattle.mv_net.specs.Order.{IsOrder};
ghost use Rattle.mv_solve.specs.Known.{HasPlaces};

use crate::Asked;
use crate::known::known_of;
use mv_base::NetId;
use mv_net::Network;

/// The number that stands for the part of a net.
fn part_of(parts: &[usize], number: usize) -> usize
    requires { number < length parts.now }
    ensures { result < length parts.now }
{
    let mut part = number;
    while parts[part] < part {
        part = parts[part];
    }
    part
}

/// Makes one part of those of two nets.
fn join(parts: &mut [usize], one: usize, other: usize)
    requires one { one < length parts.old }
    requires other { other < length parts.old }
    ensures { length parts.new ≡ length parts.old }
{
    let first = part_of(parts, one);
    let second = part_of(parts, other);
    let least = first.min(second);
    parts[first] = least;
    parts[second] = least;
    parts[one] = least;
    parts[other] = least;
}

/// Makes one part of those of a net and its fanins, but for fanins of which one value is known.
fn join_fanins(parts: &mut [usize], known: &[Asked], n: NetId, fanins: &[NetId])
    requires net { n.0 < length parts.old }
    requires fanins { (m : ℕ) → has_id fanins.now m ≡ true → m < length parts.old }
    ensures { length parts.new ≡ length parts.old }
{
    for m in fanins {
        if !known_of(known, *m).is_only() {
            join(parts, n.0 as usize, m.0 as usize);
        }
    }
}

/// Each net is a part of its own.
fn part_all(parts: &mut [usize])
    ensures { length parts.new ≡ length parts.old }
{
    for number in 0..parts.len() {
        parts[number] = number;
    }
}

/// Finds the parts.
pub fn find_parts(net: &Network, order: &[NetId], known: &[Asked], parts: &mut [usize])
    requires order { IsOrder net.now.nets order.now }
    requires room { HasPlaces net.now.nets parts.old }
    ensures { length parts.new ≡ length parts.old }
{
    part_all(parts);
    for n in order {
        join_fanins(parts, known, *n, net.fanins(*n));
    }
}

/// No part has a net.
fn clear(heads: &mut [Option<NetId>])
    ensures { length heads.new ≡ length heads.old }
{
    for number in 0..heads.len() {
        heads[number] = None;
    }
}

/// Links the nets of each part, in order: behind each net the next one of its part.
pub fn link_parts(
    order: &[NetId],
    parts: &[usize],
    heads: &mut [Option<NetId>],
    nexts: &mut [Option<NetId>],
)
    requires room { (m : ℕ) → has_id order.now m ≡ true → m < length parts.now }
    requires heads { length heads.old ≡ length parts.now }
    requires nexts { length nexts.old ≡ length parts.now }
    ensures heads { length heads.new ≡ length heads.old }
    ensures nexts { length nexts.new ≡ length nexts.old }
{
    clear(heads);
    let mut place = order.len();
    while place > 0 {
        place -= 1;
        let n = order[place];
        let part = part_of(parts, n.0 as usize);
        nexts[n.0 as usize] = heads[part];
        heads[part] = Some(n);
    }
}
