ghost use Rattle.std.specs.Prelude.{◌≡◌, ◌⊎◌, true, false, IfErr, OnOk, OnErr};
ghost use Rattle.mv_base.specs.Meaning.{Refines};
ghost use Rattle.mv_entry.specs.declared.fault.RuleFault.TheVariants.{Memory as out_of_memory};
ghost use Rattle.mv_net.specs.Allowed.{of_net};
ghost use Rattle.mv_partial.specs.Partial.{ArePartial};
ghost use Rattle.mv_plans.specs.Checks.{Answers};
ghost use Rattle.mv_rules.specs.Applies.{
  Applies,
  Fails,
  IsAtHand,
  LeavesLiterals,
  LiesWithin,
  Stops,
};

use crate::plan::{plan, plan_with, plan_within};
use crate::terms::Terms;
use mv_entry::{Rule, RuleFault};
use mv_flex::Flexibility;
use mv_net::Network;
use mv_partial::PartialNets;
use std::alloc::Global;

/// Applies the rule on these terms: at Ok the network is as the rule leaves it, and may take the old one's place, as the terms have it. Else, but for want of memory or
/// of nodes, the fault is that of the rule's first check that fails, and the network is as before. It costs
/// the tables that the rule names, those of their readers, the search for a loop, for a filling the tables
/// above, and for a narrowing those below and the points of the window. The budget is that of nodes of
/// diagrams.
pub fn apply_on(
    alloc: Global,
    net: &mut Network,
    rule: &Rule,
    terms: Terms,
) -> Result<(), RuleFault>
    ensures applies { OnOk result (Applies terms.free rule.now net.old net.new) }
    ensures fails { IfErr result (λ f. (f ≡ out_of_memory)
        ⊎ Stops terms.free terms.budget rule.now net.old f) }
    ensures refines { Refines terms.free (of_net net.new) (of_net net.old) }
    ensures err { OnErr result (net.new ≡ net.old) }
{
    net.well_formed();
    let change = plan(alloc, net, rule, terms)?;
    match net.change(change) {
        Ok(()) => Ok(()),
        Err(_memory) => Err(RuleFault::Memory),
    }
}

/// Applies a narrowing whose flexibility is at hand, below whose net each table is total. It answers as
/// `apply_on`, and costs the table and what the flexibility has to be asked, and no other table.
pub fn apply_with(
    alloc: Global,
    net: &mut Network,
    rule: &Rule,
    terms: Terms,
    flexibility: &Flexibility,
) -> Result<(), RuleFault>
    requires { IsAtHand net.old rule.now terms.budget flexibility.now }
    ensures applies { OnOk result (Applies terms.free rule.now net.old net.new) }
    ensures fails { IfErr result (λ f. (f ≡ out_of_memory)
        ⊎ Stops terms.free terms.budget rule.now net.old f) }
    ensures refines { Refines terms.free (of_net net.new) (of_net net.old) }
    ensures err { OnErr result (net.new ≡ net.old) }
{
    net.well_formed();
    let change = plan_with(alloc, net, rule, terms, flexibility)?;
    match net.change(change) {
        Ok(()) => Ok(()),
        Err(_memory) => Err(RuleFault::Memory),
    }
}

/// Applies a narrowing to a table that allows less, where it is known from which nets on some table isn't
/// total. It answers as `apply_on`, and never for want of nodes: it asks for no flexibility, and looks at
/// no table below.
pub fn apply_within(
    alloc: Global,
    net: &mut Network,
    rule: &Rule,
    terms: Terms,
    partial: &PartialNets,
) -> Result<(), RuleFault>
    requires within { LiesWithin net.old rule.now }
    requires right { ArePartial net.old.nets partial.now }
    ensures applies { OnOk result (Applies terms.free rule.now net.old net.new) }
    ensures fails { IfErr result (λ f. (f ≡ out_of_memory)
        ⊎ Fails terms.free rule.now net.old f) }
    ensures refines { Refines terms.free (of_net net.new) (of_net net.old) }
    ensures err { OnErr result (net.new ≡ net.old) }
{
    net.well_formed();
    let change = plan_within(alloc, net, rule, terms, partial)?;
    match net.change(change) {
        Ok(()) => Ok(()),
        Err(_memory) => Err(RuleFault::Memory),
    }
}

/// Applies the rule where nothing is free: the network allows nothing that it didn't, and something
/// wherever it did.
pub fn apply(alloc: Global, net: &mut Network, rule: &Rule, budget: u32) -> Result<(), RuleFault>
    ensures applies { OnOk result (Applies false rule.now net.old net.new) }
    ensures fails { IfErr result
        (λ f. (f ≡ out_of_memory) ⊎ Stops false budget rule.now net.old f) }
    ensures refines { Refines false (of_net net.new) (of_net net.old) }
    ensures err { OnErr result (net.new ≡ net.old) }
{
    apply_on(
        alloc,
        net,
        rule,
        Terms {
            free: false,
            budget,
        },
    )
}

/// Applies the rule where values under which the network allows nothing may be given any meaning.
pub fn apply_free(
    alloc: Global,
    net: &mut Network,
    rule: &Rule,
    budget: u32,
) -> Result<(), RuleFault>
    ensures applies { OnOk result (Applies true rule.now net.old net.new) }
    ensures fails { IfErr result (λ f. (f ≡ out_of_memory) ⊎ Stops true budget rule.now net.old f) }
    ensures refines { Refines true (of_net net.new) (of_net net.old) }
    ensures err { OnErr result (net.new ≡ net.old) }
{
    apply_on(alloc, net, rule, Terms { free: true, budget })
}

/// The literals of the network that `apply` would leave. It is refused as `apply` is, and changes nothing.
pub fn literals_after(
    alloc: Global,
    net: &Network,
    rule: &Rule,
    budget: u32,
) -> Result<u128, RuleFault>
    ensures { Answers result (LeavesLiterals rule.now net.now)
        (Stops false budget rule.now net.now) }
{
    let terms = Terms {
        free: false,
        budget,
    };
    let change = plan(alloc, net, rule, terms)?;
    Ok(net.literals_behind(&change))
}
