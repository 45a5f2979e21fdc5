ghost use Rattle.std.specs.Prelude.{◌≡◌, is_some, IfOk, IsTrue};
ghost use Rattle.mv_flex.specs.Flex.{IsWindowOf};
ghost use Rattle.mv_net.specs.Nets.{slot, table_in};
ghost use Rattle.mv_wide.specs.Plans.{IsPlan};
ghost use Rattle.mv_wide.specs.Windows.{IsFrameOf};

use crate::frame::Frame;
use crate::inner::{beside_of, hidden_of, kept_of, place_of};
use mv_base::{Memory, NetId};
use mv_factors::Inner;
use mv_net::{Network, Window};
use std::alloc::Global;

/// Which variables of a window are eliminated.
#[derive(Drop)]
pub struct Plan {
    /// The place of the net among the tables.
    pub place: usize,
    /// The tables that are no outputs of the window.
    pub hidden: Vec<Inner>,
    /// All nets of the window but the net and those that it reads.
    pub beside: Vec<Inner>,
}

/// The plan for a net with a table in a window around it, whose nets have variables.
pub fn plan_of(
    alloc: Global,
    net: &Network,
    w: &Window,
    n: NetId,
    frame: &Frame,
) -> Result<Plan, Memory>
    requires table { IsTrue (is_some (table_in (slot net.now.nets n.0))) }
    requires window { IsWindowOf net.now n.0 w.now }
    requires frame { IsFrameOf net.now.nets w.now n.0 frame.now }
    ensures { IfOk result (λ p. IsPlan net.now.nets w.now n.0 frame.now p) }
{
    // how many nets there are at most
    net.few();
    let vars = frame.vars.as_slice();
    let copies = w.tables.len() + 1;
    let hidden = hidden_of(alloc, w, vars, copies)?;
    let keep = kept_of(alloc, net, n)?;
    let others = copies + w.tables.len();
    let beside = beside_of(alloc, w, keep.as_slice(), vars, others)?;
    let place = place_of(w.tables.as_slice(), n);
    Ok(Plan {
        place,
        hidden,
        beside,
    })
}
