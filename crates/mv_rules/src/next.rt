//! Rules that are applied in turn.
ghost use Rattle.std.specs.Prelude.{◌≡◌, ◌⊎◌, ℕ, true, IfErr, IfOk, IfSome, IsTrue, OnOk, OnErr};
ghost use Rattle.mv_base.specs.Meaning.{Refines};
ghost use Rattle.mv_entry.specs.declared.fault.RuleFault.TheVariants.{Memory as out_of_memory};
ghost use Rattle.mv_net.specs.Allowed.{of_net};
ghost use Rattle.mv_net.specs.Total.{IsTotalNet};
ghost use Rattle.mv_partial.specs.Partial.{ArePartial};
ghost use Rattle.mv_plans.specs.Checks.{IsTabled};
ghost use Rattle.mv_rules.specs.Applies.{Applies, Stops, is_narrowing};

use crate::applying::apply_on;
use crate::plan::plan_next;
use crate::terms::Terms;
use mv_base::{Memory, Name};
use mv_entry::{Rule, RuleFault};
use mv_net::Network;
use mv_partial::{PartialNets, partial_nets};
use std::alloc::Global;

/// Applies a rule as `apply_on` does, and answers as it. What is known of the network, from which nets on
/// some table isn't total, is made where a narrowing asks for it, and known on as long as narrowings leave
/// it as it was; each other rule lets it go. So rules that are applied in turn ask each table once for
/// many narrowings.
pub fn apply_next(
    alloc: Global,
    net: &mut Network,
    rule: &Rule,
    terms: Terms,
    known: &mut Option<PartialNets>,
) -> Result<(), RuleFault>
    requires { IfSome known.old (ArePartial net.old.nets) }
    ensures applies { OnOk result (Applies terms.free rule.now net.old net.new) }
    ensures fails { IfErr result (λ f. (f ≡ out_of_memory)
        ⊎ Stops terms.free terms.budget rule.now net.old f) }
    ensures refines { Refines terms.free (of_net net.new) (of_net net.old) }
    ensures err { OnErr result (net.new ≡ net.old) }
    ensures right { IfSome known.new (ArePartial net.new.nets) }
{
    net.well_formed();
    let held = known.take();
    let Rule::Narrow { net: name, .. } = rule else {
        return apply_on(alloc, net, rule, terms);
    };
    let partial = match all_known(alloc, net, held) {
        Ok(partial) => partial,
        Err(_memory) => return Err(RuleFault::Memory),
    };
    let stays = is_total_from(net, name, &partial);
    match apply_known(alloc, net, rule, terms, &partial) {
        Ok(()) => {}
        Err(fault) => return Err(fault),
    }
    if stays {
        *known = Some(partial);
    }
    Ok(())
}

/// What is known of the network, and else what is told now.
fn all_known(
    alloc: Global,
    net: &Network,
    known: Option<PartialNets>,
) -> Result<PartialNets, Memory>
    requires { IfSome known (ArePartial net.now.nets) }
    ensures { IfOk result (ArePartial net.now.nets) }
{
    match known {
        Some(partial) => Ok(partial),
        None => partial_nets(alloc, net),
    }
}

/// Whether there is a net with this name, and from it on all tables are total.
fn is_total_from(net: &Network, name: &Name, partial: &PartialNets) -> bool
    requires { ArePartial net.now.nets partial.now }
    ensures { IsTrue result → (n : ℕ) → IsTabled net.now.nets name.now n
        → IsTotalNet net.now.nets n }
{
    net.well_formed();
    match net.find(name.bytes()) {
        Some(n) => !partial.has(n),
        None => false,
    }
}

/// Applies a narrowing, where it is known from which nets on some table isn't total. It answers as
/// `apply_on`.
fn apply_known(
    alloc: Global,
    net: &mut Network,
    rule: &Rule,
    terms: Terms,
    partial: &PartialNets,
) -> Result<(), RuleFault>
    requires narrows { is_narrowing rule.now ≡ true }
    requires right { ArePartial net.old.nets partial.now }
    ensures applies { OnOk result (Applies terms.free rule.now net.old net.new) }
    ensures fails { IfErr result (λ f. (f ≡ out_of_memory)
        ⊎ Stops terms.free terms.budget rule.now net.old f) }
    ensures refines { Refines terms.free (of_net net.new) (of_net net.old) }
    ensures err { OnErr result (net.new ≡ net.old) }
{
    net.well_formed();
    let change = plan_next(alloc, net, rule, terms, partial)?;
    match net.change(change) {
        Ok(()) => Ok(()),
        Err(_memory) => Err(RuleFault::Memory),
    }
}
