ghost use Rattle.std.specs.Prelude.{◌≡◌, true, false};
ghost use Rattle.mv_partial.specs.Partial.{ArePartial};
ghost use Rattle.mv_plans.specs.Checks.{Answers};
ghost use Rattle.mv_plans.specs.Plans.{IsPlanned};
ghost use Rattle.mv_rules.specs.Applies.{Applies, Fails, IsAtHand, LiesWithin, Stops, is_narrowing};

use crate::terms::Terms;
use mv_entry::{Rule, RuleFault};
use mv_flex::Flexibility;
use mv_net::{Change, Network};
use mv_partial::PartialNets;
use mv_plans::{
    plan_add, plan_collapse, plan_divide, plan_encode, plan_fill, plan_merge, plan_narrow,
    plan_narrow_next, plan_narrow_with, plan_narrow_within, plan_remove, plan_wire,
};
use std::alloc::Global;

/// The change that carries the rule out, or the fault of the first check that fails, or that there are
/// too few nodes.
pub fn plan(alloc: Global, net: &Network, rule: &Rule, terms: Terms) -> Result<Change, RuleFault>
    ensures { Answers result (IsPlanned net.now (Applies terms.free rule.now net.now))
        (Stops terms.free terms.budget rule.now net.now) }
{
    match rule {
        Rule::Narrow {
            net: name,
            d,
            u,
            body,
        } => plan_narrow(alloc, net, name, *d, *u, body, terms.budget),
        _ => plan_other(alloc, net, rule, terms.free),
    }
}

/// The same for a rule that isn't a narrowing: it asks for no nodes.
fn plan_other(alloc: Global, net: &Network, rule: &Rule, free: bool) -> Result<Change, RuleFault>
    requires { is_narrowing rule.now ≡ false }
    ensures { Answers result (IsPlanned net.now (Applies free rule.now net.now))
        (Fails free rule.now net.now) }
{
    match rule {
        Rule::Remove { net: name } => plan_remove(alloc, net, name),
        Rule::Add { net: name, body } => plan_add(alloc, net, name, body),
        Rule::Divide {
            net: name,
            by,
            body,
        } => plan_divide(alloc, net, name, by, body),
        Rule::Wire { net: name } => plan_wire(alloc, net, name),
        Rule::Collapse { net: name } => plan_collapse(alloc, net, name),
        Rule::Fill { net: name, out } => plan_fill(alloc, net, free, name, out),
        Rule::Merge {
            net: name,
            gone,
            into,
        } => plan_merge(alloc, net, name, *gone, *into),
        Rule::Encode {
            net: name,
            names,
            codes,
        } => plan_encode(alloc, net, name, names.as_slice(), codes.as_slice()),
        Rule::Narrow { .. } => unreachable!(),
    }
}

/// The change that carries a narrowing out, where it is known from which nets on some table isn't
/// total, or the fault of the first check that fails, or that there are too few nodes.
pub fn plan_next(
    alloc: Global,
    net: &Network,
    rule: &Rule,
    terms: Terms,
    partial: &PartialNets,
) -> Result<Change, RuleFault>
    requires narrows { is_narrowing rule.now ≡ true }
    requires right { ArePartial net.now.nets partial.now }
    ensures { Answers result (IsPlanned net.now (Applies terms.free rule.now net.now))
        (Stops terms.free terms.budget rule.now net.now) }
{
    match rule {
        Rule::Narrow {
            net: name,
            d,
            u,
            body,
        } => plan_narrow_next(alloc, net, name, *d, *u, body, terms.budget, partial),
        _ => unreachable!(),
    }
}

/// The change that carries a narrowing out whose flexibility is at hand, or the fault of the first
/// check that fails, or that there are too few nodes.
pub fn plan_with(
    alloc: Global,
    net: &Network,
    rule: &Rule,
    terms: Terms,
    flexibility: &Flexibility,
) -> Result<Change, RuleFault>
    requires { IsAtHand net.now rule.now terms.budget flexibility.now }
    ensures { Answers result (IsPlanned net.now (Applies terms.free rule.now net.now))
        (Stops terms.free terms.budget rule.now net.now) }
{
    let _ = terms;
    match rule {
        Rule::Narrow {
            net: name,
            d,
            u,
            body,
        } => plan_narrow_with(alloc, net, name, *d, *u, body, flexibility),
        _ => unreachable!(),
    }
}

/// The change that carries a narrowing to a table out that allows less, where it is known from which
/// nets on some table isn't total, or the fault of the first check that fails.
pub fn plan_within(
    alloc: Global,
    net: &Network,
    rule: &Rule,
    terms: Terms,
    partial: &PartialNets,
) -> Result<Change, RuleFault>
    requires within { LiesWithin net.now rule.now }
    requires right { ArePartial net.now.nets partial.now }
    ensures { Answers result (IsPlanned net.now (Applies terms.free rule.now net.now))
        (Fails terms.free rule.now net.now) }
{
    let _ = terms;
    match rule {
        Rule::Narrow {
            net: name,
            d,
            u,
            body,
        } => plan_narrow_within(alloc, net, name, *d, *u, body, partial),
        _ => unreachable!(),
    }
}
