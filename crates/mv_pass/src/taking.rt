ghost use Rattle.std.specs.Prelude.{◌≡◌, true, Err, IfErr, IfOk, MatchOption, OnErr, OnOk};
ghost use Rattle.mv_base.specs.Meaning.{Refines, SameMeaning};
ghost use Rattle.mv_base.specs.Outside.{Gained, GainedPart, Rose};
ghost use Rattle.mv_entry.specs.Entries.{Applied, HasVisibleNames, entry_text};
ghost use Rattle.mv_entry.specs.Tallies.{with_entry};
ghost use Rattle.mv_net.specs.Allowed.{of_net};
ghost use Rattle.mv_partial.specs.Partial.{ArePartial};
ghost use Rattle.mv_rules.specs.Applies.{IsAtHand, LiesWithin, keeps_choices};
ghost use Rattle.mv_pass.specs.Taking.{CanApply, GoesOn, Refused, TookRule, TookRulePart};

use crate::Stop;
use mv_entry::{Journal, Rule, RuleFault};
use mv_flex::Flexibility;
use mv_net::Network;
use mv_partial::PartialNets;
use mv_rules::{
    Terms, apply_on, apply_with, apply_within, names_are_visible, never_both, nodes_suffice,
    same_meaning,
};
use std::alloc::Global;

/// Notes a rule that was applied, whose names can be seen.
fn note_rule<J: Journal>(rule: &Rule, journal: &mut J) -> Result<(), Stop>
    requires { HasVisibleNames (Applied rule.now) }
    ensures gained { OnOk result
        (Gained (J.state journal.old).written (J.state journal.new).written
        (entry_text (Applied rule.now))) }
    ensures counted { OnOk result
        ((J.state journal.new).tally ≡ with_entry (J.state journal.old).tally (Applied rule.now)) }
    ensures part { OnErr result
        (GainedPart (J.state journal.old).written (J.state journal.new).written
        (entry_text (Applied rule.now))) }
    ensures cause { OnErr result
        (Rose (J.state journal.old).written.faults (J.state journal.new).written.faults) }
    ensures stop { IfErr result (λ stop. stop ≡ Stop.Note) }
    ensures goes_on { GoesOn (J.state journal.old) (J.state journal.new) }
{
    match journal.rule(rule) {
        Ok(()) => Ok(()),
        Err(_failed) => Err(Stop::Note),
    }
}

/// Applies a rule that does apply on these terms, and notes it. Stopped for want of memory, network and journal are as before;
/// stopped at the note, the rule has been applied. A rule that keeps all choices leaves what the network means.
pub fn take<J: Journal>(
    alloc: Global,
    net: &mut Network,
    rule: &Rule,
    terms: Terms,
    journal: &mut J,
) -> Result<(), Stop>
    requires { CanApply terms.free rule.now net.old }
    ensures ok { OnOk result
        (TookRule terms.free rule.now net.old net.new (J.state journal.old) (J.state journal.new)) }
    ensures note { result ≡ Err Stop.Note
        → TookRulePart terms.free rule.now net.old net.new (J.state journal.old)
        (J.state journal.new) }
    ensures cause { result ≡ Err Stop.Note
        → Rose (J.state journal.old).written.faults (J.state journal.new).written.faults }
    ensures net { result ≡ Err Stop.Memory → net.new ≡ net.old }
    ensures journal { result ≡ Err Stop.Memory → J.state journal.new ≡ J.state journal.old }
    ensures refines { Refines terms.free (of_net net.new) (of_net net.old) }
    ensures means { keeps_choices rule.now ≡ true → SameMeaning (of_net net.new) (of_net net.old) }
    ensures goes_on { GoesOn (J.state journal.old) (J.state journal.new) }
{
    net.well_formed();
    never_both();
    match attempt(alloc, net, rule, terms, journal) {
        Ok(None) => Ok(()),
        Ok(Some(_fault)) => unreachable!(),
        Err(stop) => Err(stop),
    }
}

/// Applies a rule on these terms, and notes it; or answers with the fault of its first check that fails, and network and journal are
/// as before. It plans the rule once. Stopped for want of memory, network and journal are as before; stopped at the note, the rule has
/// been applied. A rule that keeps all choices leaves what the network means.
pub fn attempt<J: Journal>(
    alloc: Global,
    net: &mut Network,
    rule: &Rule,
    terms: Terms,
    journal: &mut J,
) -> Result<Option<RuleFault>, Stop>
    ensures ok { IfOk result (λ refused. MatchOption refused
        (TookRule terms.free rule.now net.old net.new (J.state journal.old) (J.state journal.new))
        (λ fault. Refused terms.free rule.now fault net.old net.new (J.state journal.old)
        (J.state journal.new))) }
    ensures note { result ≡ Err Stop.Note
        → TookRulePart terms.free rule.now net.old net.new (J.state journal.old)
        (J.state journal.new) }
    ensures cause { result ≡ Err Stop.Note
        → Rose (J.state journal.old).written.faults (J.state journal.new).written.faults }
    ensures net { result ≡ Err Stop.Memory → net.new ≡ net.old }
    ensures journal { result ≡ Err Stop.Memory → J.state journal.new ≡ J.state journal.old }
    ensures refines { Refines terms.free (of_net net.new) (of_net net.old) }
    ensures means { keeps_choices rule.now ≡ true → SameMeaning (of_net net.new) (of_net net.old) }
    ensures goes_on { GoesOn (J.state journal.old) (J.state journal.new) }
{
    net.well_formed();
    names_are_visible();
    nodes_suffice();
    same_meaning();
    match apply_on(alloc, net, rule, terms) {
        Ok(()) => {}
        Err(RuleFault::Memory) => return Err(Stop::Memory),
        Err(fault) => return Ok(Some(fault)),
    }
    match note_rule(rule, journal) {
        Ok(()) => Ok(None),
        Err(stop) => Err(stop),
    }
}

/// Applies a narrowing that does apply on these terms, and whose flexibility is at hand, and notes it. It answers as `take`.
pub fn take_with<J: Journal>(
    alloc: Global,
    net: &mut Network,
    rule: &Rule,
    terms: Terms,
    flexibility: &Flexibility,
    journal: &mut J,
) -> Result<(), Stop>
    requires can { CanApply terms.free rule.now net.old }
    requires hand { IsAtHand net.old rule.now terms.budget flexibility.now }
    ensures ok { OnOk result
        (TookRule terms.free rule.now net.old net.new (J.state journal.old) (J.state journal.new)) }
    ensures note { result ≡ Err Stop.Note
        → TookRulePart terms.free rule.now net.old net.new (J.state journal.old)
        (J.state journal.new) }
    ensures cause { result ≡ Err Stop.Note
        → Rose (J.state journal.old).written.faults (J.state journal.new).written.faults }
    ensures net { result ≡ Err Stop.Memory → net.new ≡ net.old }
    ensures journal { result ≡ Err Stop.Memory → J.state journal.new ≡ J.state journal.old }
    ensures refines { Refines terms.free (of_net net.new) (of_net net.old) }
    ensures goes_on { GoesOn (J.state journal.old) (J.state journal.new) }
{
    net.well_formed();
    names_are_visible();
    never_both();
    nodes_suffice();
    match apply_with(alloc, net, rule, terms, flexibility) {
        Ok(()) => {}
        Err(RuleFault::Memory) => return Err(Stop::Memory),
        Err(_fault) => unreachable!(),
    }
    match note_rule(rule, journal) {
        Ok(()) => Ok(()),
        Err(stop) => Err(stop),
    }
}

/// Applies a narrowing that does apply on these terms, to a table that allows less, and notes it, where it
/// is known from which nets on some table isn't total. It answers as `take`.
pub fn take_within<J: Journal>(
    alloc: Global,
    net: &mut Network,
    rule: &Rule,
    terms: Terms,
    partial: &PartialNets,
    journal: &mut J,
) -> Result<(), Stop>
    requires can { CanApply terms.free rule.now net.old }
    requires within { LiesWithin net.old rule.now }
    requires right { ArePartial net.old.nets partial.now }
    ensures ok { OnOk result
        (TookRule terms.free rule.now net.old net.new (J.state journal.old) (J.state journal.new)) }
    ensures note { result ≡ Err Stop.Note
        → TookRulePart terms.free rule.now net.old net.new (J.state journal.old)
        (J.state journal.new) }
    ensures cause { result ≡ Err Stop.Note
        → Rose (J.state journal.old).written.faults (J.state journal.new).written.faults }
    ensures net { result ≡ Err Stop.Memory → net.new ≡ net.old }
    ensures journal { result ≡ Err Stop.Memory → J.state journal.new ≡ J.state journal.old }
    ensures refines { Refines terms.free (of_net net.new) (of_net net.old) }
    ensures goes_on { GoesOn (J.state journal.old) (J.state journal.new) }
{
    net.well_formed();
    names_are_visible();
    never_both();
    match apply_within(alloc, net, rule, terms, partial) {
        Ok(()) => {}
        Err(RuleFault::Memory) => return Err(Stop::Memory),
        Err(_fault) => unreachable!(),
    }
    match note_rule(rule, journal) {
        Ok(()) => Ok(()),
        Err(stop) => Err(stop),
    }
}
