ghost use Rattle.std.specs.Prelude.{◌≡◌, IsTrue, IfOk, IfSome};
ghost use Rattle.mv_net.specs.Nets.{slot};
ghost use Rattle.mv_net.specs.Index.{is_held};
ghost use Rattle.mv_net.specs.Allowed.{net_allows};
ghost use Rattle.mv_flex.specs.Spaces.{value_at, digits, AreBelow};
ghost use Rattle.mv_flex.specs.Plans.{counts_of, agrees_at, IsInside};
ghost use Rattle.mv_flex.specs.Truths.{Tells, IsTruth};

use crate::allow::allows;
use crate::plan::joined;
use crate::space::{Space, places_of, value_at};
use mv_base::{Items, Memory, NetId, Value};
use mv_net::Network;

/// Where a net's table agrees with values of the net and its fanins: these nets, the places of their values in lists of
/// values of all nets in question, and by the number of the values whether the table agrees, if there was room for so many.
#[derive(Debug, Drop)]
pub struct Truth {
    pub net: NetId,
    pub space: Space,
    pub places: Items<usize>,
    pub marks: Option<Items<bool>>,
}

impl Truth {
    /// The truth of a net's table, with marks if there is room for them.
    pub fn of(net: &Network, nets: &[NetId], n: NetId, room: u64) -> Result<Truth, Memory>
        requires { IsInside net.now.nets nets.now n.0 }
        ensures net { IfOk result (λ truth. truth.net ≡ n) }
        ensures truth { IfOk result (λ truth. IsTruth net.now.nets nets.now truth) }
    {
        let alloc = net.parts().nets.allocator();
        let space = Space::of(net, joined(alloc, &[n], net.fanins(n))?)?;
        let places = places_of(nets, space.nets(), alloc)?;
        let marks = marks_within(net, n, &space, room)?;
        Ok(Truth {
            net: n,
            space,
            places,
            marks,
        })
    }

    /// Whether the table agrees where these nets have these values.
    pub fn agrees(&self, net: &Network, nets: &[NetId], values: &[u16]) -> bool
        requires truth { IsTruth net.now.nets nets.now self.now }
        requires point { AreBelow (counts_of net.now.nets nets.now) values.now }
        ensures { result ≡ agrees_at net.now.nets nets.now values.now self.now.net.0 }
    {
        match &self.marks {
            None => agrees(net, self.net, nets, values),
            Some(marks) => self.told(net, nets, values, marks.as_slice()),
        }
    }

    /// What the marks tell of these values.
    fn told(&self, net: &Network, nets: &[NetId], values: &[u16], marks: &[bool]) -> bool
        requires truth { IsTruth net.now.nets nets.now self.now }
        requires point { AreBelow (counts_of net.now.nets nets.now) values.now }
        requires told { Tells net.now.nets self.now.net.0 self.now.space self.now.space.size marks.now }
        ensures { result ≡ agrees_at net.now.nets nets.now values.now self.now.net.0 }
    {
        let places = self.places.as_slice();
        let number = self.space.number(places, values);
        marks[number as usize]
    }
}

/// Whether a net's table agrees with the values of each number, if there is room for so many.
fn marks_within(
    net: &Network,
    n: NetId,
    space: &Space,
    room: u64,
) -> Result<Option<Items<bool>>, Memory>
    requires { IsTrue (is_held net.now.nets n.0) }
    ensures { IfOk result
        (λ marks. IfSome marks (Tells net.now.nets n.0 space.now space.now.size)) }
{
    if space.size() > room {
        return Ok(None);
    }
    Ok(Some(marks_of(net, n, space)?))
}

/// Whether a net's table agrees with the values of each number.
fn marks_of(net: &Network, n: NetId, space: &Space) -> Result<Items<bool>, Memory>
    requires { IsTrue (is_held net.now.nets n.0) }
    ensures { IfOk result (Tells net.now.nets n.0 space.now space.now.size) }
{
    let alloc = net.parts().nets.allocator();
    let mut marks = Items::with_room(alloc, space.size() as usize)?;
    let mut values = Vec::new(alloc);
    for number in 0..space.size() {
        let mark = agrees_with(net, n, space, number, &mut values)?;
        marks.push(mark)?;
    }
    Ok(marks)
}

/// Whether a net's table agrees with the values of a number.
fn agrees_with(
    net: &Network,
    n: NetId,
    space: &Space,
    number: u64,
    values: &mut Vec<u16>,
) -> Result<bool, Memory>
    requires { IsTrue (is_held net.now.nets n.0) }
    ensures { IfOk result
        (λ b. b ≡ agrees_at net.now.nets space.now.nets (digits space.now.counts number) n.0) }
{
    values.clear();
    space.put(number, values)?;
    Ok(agrees(net, n, space.nets(), values.as_slice()))
}

/// Whether the net's table agrees with these values.
fn agrees(net: &Network, n: NetId, nets: &[NetId], values: &[u16]) -> bool
    requires { IsTrue (is_held net.now.nets n.0) }
    ensures { result
        ≡ net_allows (slot net.now.nets n.0) (value_at nets.now values.now) (value_at nets.now values.now n.0) }
{
    let value = value_at(nets, values, n);
    if value >= net.values(n) {
        return false;
    }
    match net.table(n) {
        None => true,
        Some(cover) => allows(nets, values, cover, Value(value)),
    }
}
