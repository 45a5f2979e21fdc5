ghost use Rattle.std.specs.Prelude.{IsTrue};
ghost use Rattle.mv_merging.specs.Verdicts.{IsMergeVerdict};
ghost use Rattle.mv_merging.specs.declared.verdict.MergeVerdict.TheVariants.{Lawful};
ghost use Rattle.mv_net.specs.Index.{is_held};
ghost use Rattle.mv_plans.specs.Checks.{Answers, IsUnseen};
ghost use Rattle.mv_plans.specs.Merging.{FailsMerge, MergeRow, Merges};
ghost use Rattle.mv_plans.specs.Plans.{IsPlanned};

use crate::lookup::tabled;
use mv_base::{Name, NetId, Value};
use mv_entry::RuleFault;
use mv_merging::{MergeVerdict, merge_change, merge_verdict};
use mv_net::{Change, Network};
use std::alloc::Global;

/// The change by which a value of the net with this name goes, into another if there is one, or the first check that fails.
pub fn plan_merge(
    alloc: Global,
    net: &Network,
    name: &Name,
    gone: Value,
    into: Option<Value>,
) -> Result<Change, RuleFault>
    ensures { Answers result (IsPlanned net.now (Merges net.now name.now gone into))
        (FailsMerge net.now name.now gone into) }
{
    net.well_formed();
    net.few();
    let Some(n) = tabled(net, name) else {
        return Err(RuleFault::NoNet);
    };
    match check_merge(net, n, gone, into) {
        Ok(()) => {}
        Err(fault) => return Err(fault),
    }
    match merge_change(alloc, net, n, gone, into) {
        Ok(change) => Ok(change),
        Err(_memory) => Err(RuleFault::Memory),
    }
}

/// Whether the value of the net can go, or the first check of it that fails.
fn check_merge(net: &Network, n: NetId, gone: Value, into: Option<Value>) -> Result<(), RuleFault>
    requires { IsTrue (is_held net.now.nets n.0) }
    ensures { Answers result
        (λ _. IsUnseen net.now n.0 × IsMergeVerdict net.now n.0 gone into Lawful)
        (MergeRow gone into net.now n.0) }
{
    if net.is_seen(n) {
        return Err(RuleFault::Visible);
    }
    match merge_verdict(net, n, gone, into) {
        MergeVerdict::Form => Err(RuleFault::Form),
        MergeVerdict::NotSame => Err(RuleFault::NotSame),
        MergeVerdict::Lawful => Ok(()),
    }
}
