ghost use Rattle.std.specs.Prelude.{◌≡◌, ◌+◌, ◌-◌, ◌^◌, ◌≤◌, min};
ghost use Rattle.mv_net.specs.Nets.{slot, values_in};
ghost use Rattle.mv_net.specs.Window.{ways_in};
ghost use Rattle.mv_verify.specs.Sizes.{points_in, points_of, levels_in, own_levels_at, own_levels_in, levels_of};

use mv_base::NetId;
use mv_net::{Kind, Network};

/// How many values a net has, and one where none is held.
fn ways_at(net: &Network, n: NetId) -> u16
    ensures { result ≡ ways_in (slot net.now.nets n.0) }
{
    if net.holds(n) { net.values(n) } else { 1 }
}

/// The product of the numbers of values of all nets. It ends at the greatest number of its type.
fn points_of(net: &Network) -> u128
    ensures { result ≡ min (points_in net.now.nets) (2 ^ 128 - 1) }
{
    let mut points: u128 = 1;
    for n in 0..net.next_number() {
        points = points.saturating_mul(ways_at(net, NetId(n)).into());
    }
    points
}

/// The points of two networks: the greater of the two products of the numbers of values of all nets. It ends at the
/// greatest number of its type. No memory.
#[tactic(auto, unfolding(crate::specs::Sizes::points_of))]
pub fn points(a: &Network, b: &Network) -> u128
    ensures { result ≡ min (points_of a.now b.now) (2 ^ 128 - 1) }
{
    points_of(a).max(points_of(b))
}

/// How many values a net has less one, and none where none is held.
fn levels_at(net: &Network, n: NetId) -> u16
    ensures { result ≡ values_in (slot net.now.nets n.0) - 1 }
{
    if net.holds(n) {
        net.values(n).saturating_sub(1)
    } else {
        0
    }
}

/// The same, and none for an input or the output of a latch.
fn own_levels_at(net: &Network, n: NetId) -> u16
    ensures { result ≡ own_levels_at (slot net.now.nets n.0) }
{
    if !net.holds(n) {
        return 0;
    }
    match net.kind(n) {
        Kind::Input | Kind::Latch => 0,
        Kind::Table | Kind::Reset => net.values(n).saturating_sub(1),
    }
}

/// The sum of the numbers of values of all nets, each less one.
fn levels_in(net: &Network) -> u64
    ensures value { result ≡ levels_in net.now.nets }
    ensures few { result ≤ 2 ^ 40 }
{
    net.few();
    let mut levels: u64 = 0;
    for n in 0..net.next_number() {
        levels += u64::from(levels_at(net, NetId(n)));
    }
    levels
}

/// The same without inputs and the outputs of latches.
fn own_levels_in(net: &Network) -> u64
    ensures value { result ≡ own_levels_in net.now.nets }
    ensures few { result ≤ 2 ^ 40 }
{
    net.few();
    let mut levels: u64 = 0;
    for n in 0..net.next_number() {
        levels += u64::from(own_levels_at(net, NetId(n)));
    }
    levels
}

/// The levels of two networks: the numbers of values less one, over the nets of the first and those of the second that
/// are neither inputs nor latch outputs. No memory.
#[tactic(auto, unfolding(crate::specs::Sizes::levels_of))]
pub fn levels(a: &Network, b: &Network) -> u64
    ensures { result ≡ levels_of a.now b.now }
{
    levels_in(a) + own_levels_in(b)
}
