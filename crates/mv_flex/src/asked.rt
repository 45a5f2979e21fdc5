ghost use Rattle.std.specs.Prelude.{◌≡◌, ℕ, true, All, IfOk};
ghost use Rattle.mv_graph.specs.Nets.{has_id};
ghost use Rattle.mv_flex.specs.Spaces.{AreBelow};
ghost use Rattle.mv_flex.specs.Plans.{counts_of, all_agree, window_agrees, IsInside, IsReady};
ghost use Rattle.mv_flex.specs.Truths.{truths_agree, IsTruth, AreTruths, IsAsked};

use crate::plan::Plan;
use crate::space::places_of;
use crate::truth::Truth;
use mv_base::{Items, Memory, NetId};
use mv_net::Network;

/// For so many values of tables with their fanins, in all, marks are kept.
const ROOM: u64 = 67_108_864;

/// What is asked of the points of a window: whether the net's own table agrees, whether the others do, and which pair it is.
#[derive(Debug, Drop)]
pub struct Asked {
    pub own: Truth,
    pub others: Items<Truth>,
    pub places: Items<usize>,
}

impl Asked {
    /// What is asked by a plan.
    pub fn by(net: &Network, plan: &Plan) -> Result<Asked, Memory>
        requires { IsReady net.now.nets plan.now }
        ensures { IfOk result (IsAsked net.now.nets plan.now) }
    {
        let nets = plan.nets.as_slice();
        let own = Truth::of(net, nets, plan.net, ROOM)?;
        let others = other_truths(net, nets, plan.others.as_slice(), own.space.size())?;
        let places = places_of(nets, plan.pairs.nets(), plan.nets.allocator())?;
        Ok(Asked {
            own,
            others,
            places,
        })
    }

    /// Whether every table agrees at a point.
    pub fn all_agree(&self, net: &Network, plan: &Plan, values: &[u16]) -> bool
        requires asked { IsAsked net.now.nets plan.now self.now }
        requires point { AreBelow (counts_of net.now.nets plan.now.nets) values.now }
        ensures { result ≡ window_agrees net.now.nets plan.now values.now }
    {
        self.others_agree(net, plan, values) && self.own.agrees(net, plan.nets.as_slice(), values)
    }

    /// Whether every table but the net's own agrees at a point.
    pub fn others_agree(&self, net: &Network, plan: &Plan, values: &[u16]) -> bool
        requires asked { IsAsked net.now.nets plan.now self.now }
        requires point { AreBelow (counts_of net.now.nets plan.now.nets) values.now }
        ensures { result ≡ all_agree net.now.nets plan.now.others plan.now.nets values.now }
    {
        let truths = self.others.as_slice();
        let nets = plan.nets.as_slice();
        truths_agree(net, truths, nets, values)
    }
}

/// The truths of other tables, where so much of the room is taken.
fn other_truths(
    net: &Network,
    nets: &[NetId],
    others: &[NetId],
    taken: u64,
) -> Result<Items<Truth>, Memory>
    requires { (m : ℕ) → has_id others.now m ≡ true → IsInside net.now.nets nets.now m }
    ensures { IfOk result (AreTruths net.now.nets nets.now others.now) }
{
    let mut room = ROOM.saturating_sub(taken);
    let mut truths = Items::new(net.parts().nets.allocator());
    for other in others {
        let truth = Truth::of(net, nets, *other, room)?;
        room = room.saturating_sub(truth.space.size());
        truths.push(truth)?;
    }
    Ok(truths)
}

/// Whether these tables agree where these nets have these values.
fn truths_agree(net: &Network, truths: &[Truth], nets: &[NetId], values: &[u16]) -> bool
    requires truths { All (IsTruth net.now.nets nets.now) truths.now }
    requires point { AreBelow (counts_of net.now.nets nets.now) values.now }
    ensures { result ≡ truths_agree net.now.nets truths.now nets.now values.now }
{
    for truth in truths {
        if !truth.agrees(net, nets, values) {
            return false;
        }
    }
    true
}
