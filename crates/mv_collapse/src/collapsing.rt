ghost use Rattle.std.specs.Prelude.{◌≡◌, true, false, IfOk, MatchOption};
ghost use Rattle.mv_base.specs.Meaning.{Refines, SameMeaning};
ghost use Rattle.mv_collapse.specs.Collapses.{CollapsesFreely, CollapsesNet, StaysFor};
ghost use Rattle.mv_collapse.specs.Reasons.{why_for};
ghost use Rattle.mv_entry.specs.declared.note.Command.TheVariants.{Collapse as collapse_command};
ghost use Rattle.mv_entry.specs.Entries.{is_visible_name, HasVisibleNames, Noted};
ghost use Rattle.mv_entry.specs.Tallies.{Takes};
ghost use Rattle.mv_net.specs.Allowed.{of_net};
ghost use Rattle.mv_pass.specs.Courses.{Perhaps};
ghost use Rattle.mv_pass.specs.Going.{Begun, Does};
ghost use Rattle.mv_pass.specs.Passing.{Passes};

use crate::Stop;
use mv_base::{Failed, Memory, Name};
use mv_entry::{Command, Journal, Note, Rule, RuleFault, Why};
use mv_net::Network;
use mv_pass::{end, take};
use mv_rules::{Terms, literals_after};
use std::alloc::Global;

/// The note of a check of the rule that fails.
fn why_of(fault: RuleFault) -> Option<Why>
    ensures { result ≡ why_for fault }
{
    match fault {
        RuleFault::NoNet => Some(Why::Absent),
        RuleFault::Visible => Some(Why::Seen),
        RuleFault::Unread => Some(Why::Unread),
        RuleFault::Shared => Some(Why::Shared),
        RuleFault::Wide => Some(Why::Lines),
        _ => None,
    }
}

/// Why the net with this name stays, if it does.
fn reason(
    alloc: Global,
    net: &Network,
    rule: &Rule,
    name: &Name,
    terms: Terms,
) -> Result<Option<Why>, Memory>
    requires { rule.now ≡ Rule.Collapse name.now }
    ensures { IfOk result
        (λ why. MatchOption why (CollapsesFreely net.now name.now) (StaysFor net.now name.now)) }
{
    match literals_after(alloc, net, rule, terms.budget) {
        Ok(after) => {
            let before = net.literals();
            if before < after {
                return Ok(Some(Why::Literals { before, after }));
            }
            Ok(None)
        }
        Err(fault) => {
            if fault == RuleFault::Memory {
                return Err(Memory);
            }
            match why_of(fault) {
                Some(why) => Ok(Some(why)),
                None => unreachable!(),
            }
        }
    }
}

/// Takes down once that the net with this name stays, and why.
fn put_note<J: Journal>(why: Why, name: Name, journal: &mut J) -> Result<(), Failed>
    requires { HasVisibleNames (Noted (Note.Dropped why name)) }
    ensures { Takes (J.state journal.old) (J.state journal.new) (Noted (Note.Dropped why name)) result }
{
    journal.note(&Note::Dropped(why, name))
}

/// Notes why the net with this name stays.
fn note_reason<J: Journal>(
    net: &Network,
    name: &Name,
    why: Why,
    terms: Terms,
    journal: &mut J,
) -> Result<(), Stop>
    requires visible { is_visible_name name.now ≡ true }
    requires stays { StaysFor net.now name.now why }
    ensures { Passes terms.free (CollapsesNet terms.free name.now)
        (Perhaps (CollapsesNet terms.free name.now)) net.now net.now
        (J.state journal.old) (J.state journal.new) result }
{
    let own = match name.copy() {
        Ok(own) => own,
        Err(_memory) => return Err(Stop::Memory),
    };
    match put_note(why, own, journal) {
        Ok(()) => Ok(()),
        Err(_failed) => Err(Stop::Note),
    }
}

/// Applies the rule to the net with this name, or notes why the net stays.
fn step<J: Journal>(
    alloc: Global,
    net: &mut Network,
    name: &Name,
    terms: Terms,
    journal: &mut J,
) -> Result<(), Stop>
    requires { is_visible_name name.now ≡ true }
    ensures passes { Passes terms.free (CollapsesNet terms.free name.now)
        (Perhaps (CollapsesNet terms.free name.now)) net.old net.new
        (J.state journal.old) (J.state journal.new) result }
    ensures means { SameMeaning (of_net net.new) (of_net net.old) }
{
    let own = match name.copy() {
        Ok(own) => own,
        Err(_memory) => return Err(Stop::Memory),
    };
    let rule = Rule::Collapse { net: own };
    match reason(alloc, net, &rule, name, terms) {
        Ok(None) => match take(alloc, net, &rule, terms, journal) {
            Ok(()) => Ok(()),
            Err(stop) => Err(stop),
        },
        Ok(Some(why)) => note_reason(net, name, why, terms, journal),
        Err(_memory) => Err(Stop::Memory),
    }
}

/// The command `collapse NET`: the net goes into its readers, where the literals are no more then; else it is noted why it stays: the
/// first of that there is no such net with a table, that it is seen, that it isn't read, that several nets read it and it may have one of
/// several values, that a composite is too wide, and that the literals would rise. What the network means stays, also where the command
/// stops; it has one step, or none where it stops.
pub fn collapse<J: Journal>(
    alloc: Global,
    net: &mut Network,
    name: &Name,
    journal: &mut J,
    terms: Terms,
) -> Result<(), Stop>
    requires { is_visible_name name.now ≡ true }
    ensures passes { Passes terms.free
        (Does (CollapsesNet terms.free name.now) (collapse_command name.now))
        (Begun (CollapsesNet terms.free name.now) (Perhaps (CollapsesNet terms.free name.now))
        (collapse_command name.now))
        net.old net.new (J.state journal.old) (J.state journal.new) result }
    ensures refines { Refines false (of_net net.new) (of_net net.old) }
{
    let own = match name.copy() {
        Ok(own) => own,
        Err(_memory) => return Err(Stop::Memory),
    };
    match journal.note(&Note::Begin(Command::Collapse(own))) {
        Ok(()) => {}
        Err(_failed) => return Err(Stop::Note),
    }
    match step(alloc, net, name, terms, journal) {
        Ok(()) => end(net, journal),
        Err(stop) => Err(stop),
    }
}
