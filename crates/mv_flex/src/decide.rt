ghost use Rattle.std.specs.Prelude.{◌≡◌, ◌≤◌, ◌++◌, ℕ, Some, is_some, IfOk, IfErr, IsTrue};
ghost use Rattle.mv_base.specs.declared.limits.TheConstants.{MAX_WINDOW_POINTS};
ghost use Rattle.mv_net.specs.Window.{ways_of};
ghost use Rattle.mv_net.specs.Nets.{slot, table_in};
ghost use Rattle.mv_flex.specs.Flex.{IsWindowOf, TooWide, IsFlexStop};
ghost use Rattle.mv_flex.specs.Flexibilities.{IsFlex};

use crate::plan::plan_of;
use crate::search::outside_pairs;
use crate::{FlexStop, Flexibility};
use mv_base::{MAX_WINDOW_POINTS, Memory, NetId};
use mv_cover::Cover;
use mv_net::{Network, Window};

/// The flexibility of a net with a table in a window around it, with so many nodes at most.
pub fn flex(net: &Network, w: &Window, n: NetId, budget: u32) -> Result<Flexibility, FlexStop>
    requires table { IsTrue (is_some (table_in (slot net.now.nets n.0))) }
    requires window { IsWindowOf net.now n.0 w.now }
    ensures ok { IfOk result (λ f. IsFlex net.now w.now n.0 budget f) }
    ensures narrow { IfOk result (λ f. TooWide net.now w.now → ⊥) }
    ensures err { IfErr result (λ stop. IsFlexStop net.now w.now budget stop) }
{
    let _ = budget;
    if net.points(w) > MAX_WINDOW_POINTS as u128 {
        return Err(FlexStop::Window {
            levels: net.levels(w),
        });
    }
    match gone_through(net, w, n) {
        Ok(flexibility) => Ok(flexibility),
        Err(Memory) => Err(FlexStop::Memory),
    }
}

/// The same in a window of so few points that they are gone through.
fn gone_through(net: &Network, w: &Window, n: NetId) -> Result<Flexibility, Memory>
    requires table { IsTrue (is_some (table_in (slot net.now.nets n.0))) }
    requires window { IsWindowOf net.now n.0 w.now }
    requires few { ways_of net.now.nets (w.now.tables ++ w.now.inputs) ≤ MAX_WINDOW_POINTS }
    ensures { IfOk result (λ f. (budget : ℕ) → IsFlex net.now w.now n.0 budget f) }
{
    net.well_formed();
    let plan = plan_of(net, w, n)?;
    let outside = outside_pairs(net, &plan)?;
    let old = old_table(net, n)?;
    Ok(Flexibility {
        net: n,
        old,
        fanins: plan.fanins,
        pairs: plan.pairs,
        outside,
    })
}

/// The net's table.
fn old_table(net: &Network, n: NetId) -> Result<Cover, Memory>
    requires { IsTrue (is_some (table_in (slot net.now.nets n.0))) }
    ensures { IfOk result (λ cover. table_in (slot net.now.nets n.0) ≡ Some cover) }
{
    net.table(n).unwrap().copy()
}
