ghost use Rattle.std.specs.Prelude.{◌≡◌, false, IfOk, OnOk, MatchOption};
ghost use Rattle.mv_agenda.specs.Agenda.{AllWait};
ghost use Rattle.mv_base.specs.Meaning.{Refines, SameMeaning};
ghost use Rattle.mv_entry.specs.declared.note.Command.TheVariants.{Sweep as sweep_command};
ghost use Rattle.mv_net.specs.Allowed.{of_net};
ghost use Rattle.mv_pass.specs.Going.{Begun, Does};
ghost use Rattle.mv_pass.specs.Passing.{Passes};
ghost use Rattle.mv_gain.specs.Kept.{AreRight};
ghost use Rattle.mv_sweep.specs.Sweeps.{IsSwept, SweepsAll, SweepsSome};
ghost use Rattle.mv_sweep.specs.Ways as spec;
ghost use Rattle.mv_sweep.specs.Ways.{CanSweep, IsNext, IsLeastWay, StepsAround};

use crate::Stop;
use crate::way::{Way, way_of};
use mv_agenda::{Agenda, put_near};
use mv_base::{Memory, Name, NetId};
use mv_entry::{Command, Journal, Note, Rule};
use mv_gain::KeptComposites;
use mv_net::Network;
use mv_pass::{end, take};
use mv_rules::Terms;
use std::alloc::Global;

/// A net, and the rule that `sweep` applies to it.
#[derive(Clone, Copy)]
struct Found {
    n: NetId,
    way: Way,
}

/// The least net that waits to which a rule applies, with that rule; those before it wait no more.
fn next_found(
    alloc: Global,
    net: &Network,
    agenda: &mut Agenda,
    kept: &mut KeptComposites,
) -> Result<Option<Found>, Memory>
    requires wait { AllWait (CanSweep net.now) agenda.old }
    requires right { AreRight net.now.nets kept.old }
    ensures found { IfOk result
        (λ found. MatchOption found (IsSwept net.now)
        (λ f. IsNext net.now agenda.new f.n.0 f.way)) }
    ensures right { OnOk result (AreRight net.now.nets kept.new) }
{
    'looking: loop {
        let Some(n) = agenda.take_least() else {
            return Ok(None);
        };
        match way_of(alloc, net, kept, n) {
            Ok(Some(way)) => return Ok(Some(Found { n, way })),
            Ok(None) => {}
            Err(memory) => return Err(memory),
        }
    }
}

/// The rule for the net with this name.
fn rule_for(way: Way, name: Name) -> Rule
    ensures { result ≡ spec.rule_for way name }
{
    match way {
        Way::Remove => Rule::Remove { net: name },
        Way::Wire => Rule::Wire { net: name },
        Way::Collapse => Rule::Collapse { net: name },
    }
}

/// Applies the rule to the net, which is the least to which one applies, and notes it.
fn step<J: Journal>(
    alloc: Global,
    net: &mut Network,
    found: &Found,
    terms: Terms,
    journal: &mut J,
) -> Result<(), Stop>
    requires { IsLeastWay net.old found.now.n.0 found.now.way }
    ensures passes { Passes terms.free (SweepsSome terms.free)
        (SweepsSome terms.free) net.old net.new
        (J.state journal.old) (J.state journal.new) result }
    ensures around { OnOk result (StepsAround net.old net.new found.now.n.0) }
    ensures means { SameMeaning (of_net net.new) (of_net net.old) }
{
    net.well_formed();
    let name = match Name::new(alloc, net.name(found.n)) {
        Ok(name) => name,
        Err(_memory) => return Err(Stop::Memory),
    };
    let rule = rule_for(found.way, name);
    match take(alloc, net, &rule, terms, journal) {
        Ok(()) => {
            net.well_formed();
            Ok(())
        }
        Err(stop) => Err(stop),
    }
}

/// Applies the rule for the least net to which one applies, until there is none. A net that was looked at waits again once
/// something near it changes, so that the least that waits and has a rule is the least of all.
fn sweep_each<J: Journal>(
    alloc: Global,
    net: &mut Network,
    terms: Terms,
    journal: &mut J,
) -> Result<(), Stop>
    ensures passes { Passes terms.free (SweepsAll terms.free)
        (SweepsSome terms.free) net.old net.new
        (J.state journal.old) (J.state journal.new) result }
    ensures means { SameMeaning (of_net net.new) (of_net net.old) }
{
    let mut agenda = match Agenda::of_all(alloc, net.next_number()) {
        Ok(agenda) => agenda,
        Err(_memory) => return Err(Stop::Memory),
    };
    let mut kept = match KeptComposites::none(alloc, net.next_number()) {
        Ok(kept) => kept,
        Err(_memory) => return Err(Stop::Memory),
    };
    'sweeping: loop {
        let found = match next_found(alloc, net, &mut agenda, &mut kept) {
            Ok(Some(found)) => found,
            Ok(None) => return Ok(()),
            Err(_memory) => return Err(Stop::Memory),
        };
        match put_near(&mut agenda, net, found.n) {
            Ok(()) => {}
            Err(_memory) => return Err(Stop::Memory),
        }
        match kept.forget_near(net, found.n) {
            Ok(()) => {}
            Err(_memory) => return Err(Stop::Memory),
        }
        match step(alloc, net, &found, terms, journal) {
            Ok(()) => {}
            Err(stop) => return Err(stop),
        }
    }
}

/// The command `sweep`: at the least-numbered net to which one applies, takes away a net that nobody sees or reads and whose table is
/// total, has the readers of a plain buffer read its fanin, or puts a plain constant into its readers, until there is none; and notes
/// the beginning, each rule and the end. What the network means stays, also where the command stops.
pub fn sweep<J: Journal>(
    alloc: Global,
    net: &mut Network,
    journal: &mut J,
    terms: Terms,
) -> Result<(), Stop>
    ensures passes { Passes terms.free (Does (SweepsAll terms.free) sweep_command)
        (Begun (SweepsAll terms.free) (SweepsSome terms.free) sweep_command) net.old net.new
        (J.state journal.old) (J.state journal.new) result }
    ensures refines { Refines false (of_net net.new) (of_net net.old) }
{
    match journal.note(&Note::Begin(Command::Sweep)) {
        Ok(()) => {}
        Err(_failed) => return Err(Stop::Note),
    }
    match sweep_each(alloc, net, terms, journal) {
        Ok(()) => end(net, journal),
        Err(stop) => Err(stop),
    }
}
