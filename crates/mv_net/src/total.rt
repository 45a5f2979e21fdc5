ghost use Rattle.std.specs.Prelude.{IsTrue, IfOk, MatchBool};
ghost use Rattle.mv_net.specs.Index.{is_held};
ghost use Rattle.mv_net.specs.Total.{IsTotalNet};

use crate::Network;
use mv_base::{Memory, NetId};
use std::alloc::Global;

impl Network {
    /// Whether a held net has a table that allows some value at every point: it has a default, or its lines match
    /// every point. It fails for want of memory alone.
    pub fn is_total(&self, alloc: Global, n: NetId) -> Result<bool, Memory>
        requires { IsTrue (is_held self.now.nets n.0) }
        ensures { IfOk result
            (λ total. MatchBool total (IsTotalNet self.now.nets n.0)
            (IsTotalNet self.now.nets n.0 → ⊥)) }
    {
        self.well_formed();
        let Some(cover) = self.table(n) else {
            return Ok(false);
        };
        if cover.default.is_some() {
            return Ok(true);
        }
        cover.covers_all(alloc, self.counts())
    }
}
