ghost use Rattle.std.specs.Prelude.{◌≡◌, OnOk, IfErr};
ghost use Rattle.mv_entry.specs.declared.fault.RuleFault.TheVariants.{Memory as out_of_memory};
ghost use Rattle.mv_base.specs.Meaning.{Refines};
ghost use Rattle.mv_net.specs.Allowed.{of_net};
ghost use Rattle.mv_rules.specs.Replaying.{Replays};
ghost use Rattle.mv_cert.specs.Replay.{EndsEarly, rules_in};

use crate::ReplayFault;
use mv_entry::RuleFault;
use mv_net::Network;
use mv_rules::{Terms, apply_next};
use mv_step::Step;
use std::alloc::Global;

/// The fault of a replay that ends at the rule of this line. Want of memory says nothing of the rule.
fn refusal(line: u32, fault: RuleFault) -> ReplayFault
    ensures memory { fault ≡ out_of_memory → result ≡ ReplayFault.Memory }
    ensures rule { (fault ≡ out_of_memory → ⊥) → result ≡ ReplayFault.Rule line fault }
{
    if fault == RuleFault::Memory {
        return ReplayFault::Memory;
    }
    ReplayFault::Rule { line, fault }
}

/// Applies the steps in turn on these terms. At Ok all of them applied; else the fault is that of the first that doesn't, with its
/// line, or that there are too few nodes to judge it, and the network is as the steps before it leave it, as it is for want of
/// memory. The network may always take the place of the old one, where free under values where that one allows some choice.
pub fn replay(
    alloc: Global,
    net: &mut Network,
    steps: &[Step],
    terms: Terms,
) -> Result<(), ReplayFault>
    ensures replays { OnOk result (Replays terms.free (rules_in steps.now) net.old net.new) }
    ensures stops { IfErr result (EndsEarly terms.free terms.budget steps.now net.old net.new) }
    ensures refines { Refines terms.free (of_net net.new) (of_net net.old) }
{
    let mut known = None;
    for step in steps {
        match apply_next(alloc, net, &step.rule, terms, &mut known) {
            Ok(()) => {}
            Err(fault) => return Err(refusal(step.line, fault)),
        }
    }
    Ok(())
}
