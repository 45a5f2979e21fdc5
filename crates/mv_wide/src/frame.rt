ghost use Rattle.std.specs.Prelude.{◌≡◌, [], ◌∷◌, is_some, IfOk, IsTrue};
ghost use Rattle.mv_flex.specs.Flex.{IsWindowOf};
ghost use Rattle.mv_net.specs.Nets.{slot, table_in};
ghost use Rattle.mv_wide.specs.Wides.{IsFramed};
ghost use Rattle.mv_wide.specs.Windows.{IsFrameOf};

use crate::nets::{counts_of, nets_of, vars_of};
use mv_base::{Items, Memory, NetId};
use mv_cover::Cover;
use mv_net::{Network, Window};
use std::alloc::Global;

/// The nets of a window as variables. They are numbered so that those of the nets that a table reads stand before its own,
/// where they don't stand elsewhere already.
#[derive(Drop)]
pub struct Frame {
    /// For each number the variable of its net.
    pub vars: Vec<u32>,
    /// How many values each variable has.
    pub counts: Vec<u16>,
    /// The variable of the net whose flexibility it is.
    pub own: u32,
    /// The nets that it reads.
    pub fanins: Vec<NetId>,
    /// Its table.
    pub table: Cover,
}

/// The frame of no net: one variable with one value.
pub fn empty_frame(alloc: Global) -> Result<Frame, Memory>
    ensures counts { IfOk result (λ f. f.counts.items ≡ 1 ∷ []) }
    ensures framed { IfOk result IsFramed }
{
    let counts = Vec::from_slice(alloc, &[1])?;
    let table = Cover::new(alloc, Items::new(alloc), None)?;
    Ok(Frame {
        vars: Vec::new(alloc),
        counts,
        own: 0,
        fanins: Vec::new(alloc),
        table,
    })
}

/// The frame for a net with a table in a window around it.
pub fn frame_of(alloc: Global, net: &Network, w: &Window, n: NetId) -> Result<Frame, Memory>
    requires table { IsTrue (is_some (table_in (slot net.now.nets n.0))) }
    requires window { IsWindowOf net.now n.0 w.now }
    ensures { IfOk result (λ f. IsFrameOf net.now.nets w.now n.0 f) }
{
    net.well_formed();
    // how many nets there are at most
    net.few();
    let tables = w.tables.as_slice();
    let found = nets_of(net, tables)?;
    let nets = found.as_slice();
    let size = net.parts().nets.len();
    let vars = vars_of(alloc, nets, size)?;
    let counts = counts_of(alloc, net, nets)?;
    let fanins = Vec::from_slice(alloc, net.fanins(n))?;
    let table = net.table(n).unwrap().copy()?;
    let own = vars[n.0 as usize];
    Ok(Frame {
        vars,
        counts,
        own,
        fanins,
        table,
    })
}
