ghost use Rattle.std.specs.Prelude.{false, IfOk, OnOk, MatchOption};
ghost use Rattle.mv_agenda.specs.Agenda.{AllWait};
ghost use Rattle.mv_base.specs.Meaning.{Refines, SameMeaning};
ghost use Rattle.mv_eliminate.specs.Eliminates.{CollapsesAll, CollapsesSome, Eliminates, EliminatesAll};
ghost use Rattle.mv_eliminate.specs.Eliminating.{IsNextSaving, WentInto};
ghost use Rattle.mv_entry.specs.declared.note.Command.TheVariants.{Eliminate as eliminate_command};
ghost use Rattle.mv_net.specs.Allowed.{of_net};
ghost use Rattle.mv_pass.specs.Going.{Begun, Does};
ghost use Rattle.mv_pass.specs.Passing.{Passes};
ghost use Rattle.mv_gain.specs.Kept.{AreRight};
ghost use Rattle.mv_gain.specs.Savings.{IsSaving, IsLeastSaving, NoneSaves};

use crate::Stop;
use crate::noting::note_wide;
use mv_agenda::{Agenda, put_near};
use mv_base::{Memory, Name, NetId};
use mv_entry::{Command, Journal, Note, Rule};
use mv_gain::KeptComposites;
use mv_net::Network;
use mv_pass::{end, take};
use mv_rules::Terms;
use std::alloc::Global;

/// The least net that waits and saves, if one does; those before it wait no more.
fn next_saving(
    alloc: Global,
    net: &Network,
    agenda: &mut Agenda,
    kept: &mut KeptComposites,
) -> Result<Option<NetId>, Memory>
    requires wait { AllWait (IsSaving net.now) agenda.old }
    requires right { AreRight net.now.nets kept.old }
    ensures found { IfOk result
        (λ found. MatchOption found (NoneSaves net.now)
        (λ n. IsNextSaving net.now agenda.new n.0)) }
    ensures right { OnOk result (AreRight net.now.nets kept.new) }
{
    net.well_formed();
    'looking: loop {
        let Some(n) = agenda.take_least() else {
            return Ok(None);
        };
        match kept.saves(alloc, net, n) {
            Ok(true) => return Ok(Some(n)),
            Ok(false) => {}
            Err(memory) => return Err(memory),
        }
    }
}

/// Collapses the net, which is the least that saves, and notes it.
fn step<J: Journal>(
    alloc: Global,
    net: &mut Network,
    n: NetId,
    terms: Terms,
    journal: &mut J,
) -> Result<(), Stop>
    requires { IsLeastSaving net.old n.0 }
    ensures passes { Passes terms.free (CollapsesSome terms.free)
        (CollapsesSome terms.free) net.old net.new
        (J.state journal.old) (J.state journal.new) result }
    ensures into { OnOk result (WentInto net.old net.new n.0) }
    ensures means { SameMeaning (of_net net.new) (of_net net.old) }
{
    net.well_formed();
    let name = match Name::new(alloc, net.name(n)) {
        Ok(name) => name,
        Err(_memory) => return Err(Stop::Memory),
    };
    let rule = Rule::Collapse { net: name };
    match take(alloc, net, &rule, terms, journal) {
        Ok(()) => {
            net.well_formed();
            Ok(())
        }
        Err(stop) => Err(stop),
    }
}

/// Collapses the least net that saves, until there is none. A net that was looked at waits again once something near it changes, so
/// that the least that waits and saves is the least of all.
fn collapse_each<J: Journal>(
    alloc: Global,
    net: &mut Network,
    kept: &mut KeptComposites,
    terms: Terms,
    journal: &mut J,
) -> Result<(), Stop>
    requires { AreRight net.old.nets kept.old }
    ensures passes { Passes terms.free (CollapsesAll terms.free)
        (CollapsesSome terms.free) net.old net.new
        (J.state journal.old) (J.state journal.new) result }
    ensures right { OnOk result (AreRight net.new.nets kept.new) }
    ensures means { SameMeaning (of_net net.new) (of_net net.old) }
{
    let mut agenda = match Agenda::of_all(alloc, net.next_number()) {
        Ok(agenda) => agenda,
        Err(_memory) => return Err(Stop::Memory),
    };
    'collapsing: loop {
        let n = match next_saving(alloc, net, &mut agenda, kept) {
            Ok(Some(n)) => n,
            Ok(None) => return Ok(()),
            Err(_memory) => return Err(Stop::Memory),
        };
        net.well_formed();
        match put_near(&mut agenda, net, n) {
            Ok(()) => {}
            Err(_memory) => return Err(Stop::Memory),
        }
        match kept.forget_near(net, n) {
            Ok(()) => {}
            Err(_memory) => return Err(Stop::Memory),
        }
        match step(alloc, net, n, terms, journal) {
            Ok(()) => {}
            Err(stop) => return Err(stop),
        }
    }
}

/// All steps of `eliminate`: its collapses, and then its notes.
fn collapse_and_note<J: Journal>(
    alloc: Global,
    net: &mut Network,
    terms: Terms,
    journal: &mut J,
) -> Result<(), Stop>
    ensures passes { Passes terms.free (EliminatesAll terms.free)
        (Eliminates terms.free) net.old net.new
        (J.state journal.old) (J.state journal.new) result }
    ensures means { SameMeaning (of_net net.new) (of_net net.old) }
{
    let mut kept = match KeptComposites::none(alloc, net.next_number()) {
        Ok(kept) => kept,
        Err(_memory) => return Err(Stop::Memory),
    };
    match collapse_each(alloc, net, &mut kept, terms, journal) {
        Ok(()) => {}
        Err(stop) => return Err(stop),
    }
    match note_wide(alloc, net, &mut kept, terms, journal) {
        Ok(()) => Ok(()),
        Err(stop) => Err(stop),
    }
}

/// The command `eliminate`: collapses the least-numbered net which the rule lets go into its readers and whose composites leave the
/// literals no higher, until there is none; and then notes each net that the rule refuses for this alone that a composite is too wide. What
/// the network means stays, also where the command stops. (So does SIS's `eliminate 0`, but by the literals of factored forms.)
pub fn eliminate<J: Journal>(
    alloc: Global,
    net: &mut Network,
    journal: &mut J,
    terms: Terms,
) -> Result<(), Stop>
    ensures passes { Passes terms.free (Does (EliminatesAll terms.free) eliminate_command)
        (Begun (EliminatesAll terms.free) (Eliminates terms.free) eliminate_command) net.old net.new
        (J.state journal.old) (J.state journal.new) result }
    ensures refines { Refines false (of_net net.new) (of_net net.old) }
{
    match journal.note(&Note::Begin(Command::Eliminate)) {
        Ok(()) => {}
        Err(_failed) => return Err(Stop::Note),
    }
    match collapse_and_note(alloc, net, terms, journal) {
        Ok(()) => end(net, journal),
        Err(stop) => Err(stop),
    }
}
