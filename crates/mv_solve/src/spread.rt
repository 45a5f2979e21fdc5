//! What is known of nets is spread to others, without search.
ghost use Rattle.std.specs.Prelude.{◌≡◌, length, slice_index};
ghost use Rattle.mv_net.specs.Order.{IsOrder};
ghost use Rattle.mv_solve.specs.Known.{HasPlaces, IsKnown};
ghost use Rattle.mv_solve.specs.Way.{AreGiven};

use crate::Asked;
use crate::backward::spread_backward;
use crate::forward::spread_forward;
use crate::known::count_only;
use mv_base::NetId;
use mv_net::Network;

/// What is known of the nets where so much is asked, until no more comes.
pub fn spread(net: &Network, order: &[NetId], asked: &[Asked], known: &mut [Asked])
    requires order { IsOrder net.now.nets order.now }
    requires room { HasPlaces net.now.nets asked.now }
    requires long { length known.old ≡ length asked.now }
    ensures { IsKnown net.now.nets asked.now known.new }
{
    known.copy_from_slice(asked);
    for _ in 0..order.len() {
        let before = count_only(known);
        spread_forward(net, order, known);
        spread_backward(net, order, known);
        if count_only(known) == before {
            return;
        }
    }
}

/// Gives the nets the values that are known.
pub fn give_known(known: &[Asked], values: &mut [u16])
    requires { length values.old ≡ length known.now }
    ensures { AreGiven known.now (slice_index values.new) }
{
    for number in 0..known.len() {
        if let Asked::Only(value) = known[number] {
            values[number] = value.0;
        }
    }
}
