ghost use Rattle.std.specs.Prelude.{◌≡◌, false, IfOk, OnOk, MatchBool, MatchOption};
ghost use Rattle.mv_agenda.specs.Agenda.{AllWait};
ghost use Rattle.mv_base.specs.Meaning.{Refines, SameMeaning};
ghost use Rattle.mv_entry.specs.declared.note.Command.TheVariants.{Drop as drop};
ghost use Rattle.mv_net.specs.Allowed.{of_net};
ghost use Rattle.mv_net.specs.Changes.{without};
ghost use Rattle.mv_net.specs.Total.{IsRemovable};
ghost use Rattle.mv_pass.specs.Going.{Begun, Does};
ghost use Rattle.mv_pass.specs.Passing.{Passes};
ghost use Rattle.mv_sweep.specs.Drops.{DropsAll, DropsSome, IsLeastRemovable, NoneLeft};
ghost use Rattle.mv_sweep.specs.Search.{IsNextRemovable};

use crate::Stop;
use mv_agenda::Agenda;
use mv_base::{Memory, Name, NetId};
use mv_entry::{Command, Journal, Note, Rule};
use mv_net::Network;
use mv_pass::{end, take};
use mv_rules::Terms;
use std::alloc::Global;

/// Whether the net of this number can go.
fn is_removable(alloc: Global, net: &Network, n: NetId) -> Result<bool, Memory>
    ensures { IfOk result
        (λ goes. MatchBool goes (IsRemovable net.now n.0) (IsRemovable net.now n.0 → ⊥)) }
{
    if !net.holds(n) {
        return Ok(false);
    }
    if net.is_seen(n) {
        return Ok(false);
    }
    if !net.readers(n).is_empty() {
        return Ok(false);
    }
    net.is_total(alloc, n)
}

/// The least net that waits and can go, if one does; those before it wait no more.
fn next_removable(
    alloc: Global,
    net: &Network,
    agenda: &mut Agenda,
) -> Result<Option<NetId>, Memory>
    requires { AllWait (IsRemovable net.now) agenda.old }
    ensures { IfOk result
        (λ found. MatchOption found (NoneLeft net.now)
        (λ n. IsNextRemovable net.now agenda.new n.0)) }
{
    'looking: loop {
        let Some(n) = agenda.take_least() else {
            return Ok(None);
        };
        match is_removable(alloc, net, n) {
            Ok(true) => return Ok(Some(n)),
            Ok(false) => {}
            Err(memory) => return Err(memory),
        }
    }
}

/// Takes away the net, which is the least that can go, and notes it.
fn step<J: Journal>(
    alloc: Global,
    net: &mut Network,
    n: NetId,
    terms: Terms,
    journal: &mut J,
) -> Result<(), Stop>
    requires { IsLeastRemovable net.old n.0 }
    ensures passes { Passes terms.free (DropsSome terms.free) (DropsSome terms.free) net.old net.new
        (J.state journal.old) (J.state journal.new) result }
    ensures gone { OnOk result (net.new ≡ without net.old n.0) }
    ensures means { SameMeaning (of_net net.new) (of_net net.old) }
{
    net.well_formed();
    let name = match Name::new(alloc, net.name(n)) {
        Ok(name) => name,
        Err(_memory) => return Err(Stop::Memory),
    };
    match take(alloc, net, &Rule::Remove { net: name }, terms, journal) {
        Ok(()) => Ok(()),
        Err(stop) => Err(stop),
    }
}

/// Takes away the least net that can go, until there is none. Where a net goes only those that it read can have come to be such, so
/// they wait again, and the least that waits and can go is the least of all.
fn remove_each<J: Journal>(
    alloc: Global,
    net: &mut Network,
    terms: Terms,
    journal: &mut J,
) -> Result<(), Stop>
    ensures passes { Passes terms.free (DropsAll terms.free) (DropsSome terms.free) net.old net.new
        (J.state journal.old) (J.state journal.new) result }
    ensures means { SameMeaning (of_net net.new) (of_net net.old) }
{
    let mut agenda = match Agenda::of_all(alloc, net.next_number()) {
        Ok(agenda) => agenda,
        Err(_memory) => return Err(Stop::Memory),
    };
    'removing: loop {
        let n = match next_removable(alloc, net, &mut agenda) {
            Ok(Some(n)) => n,
            Ok(None) => return Ok(()),
            Err(_memory) => return Err(Stop::Memory),
        };
        match agenda.put_all(net.fanins(n)) {
            Ok(()) => {}
            Err(_memory) => return Err(Stop::Memory),
        }
        match step(alloc, net, n, terms, journal) {
            Ok(()) => {}
            Err(stop) => return Err(stop),
        }
    }
}

/// The command `drop`: takes away the least-numbered net that nobody sees or reads and whose table is total, until there is none,
/// and notes the beginning, each net that goes and the end. What the network means stays, also where the command stops.
pub fn remove_unread<J: Journal>(
    alloc: Global,
    net: &mut Network,
    journal: &mut J,
    terms: Terms,
) -> Result<(), Stop>
    ensures passes { Passes terms.free (Does (DropsAll terms.free) drop)
        (Begun (DropsAll terms.free) (DropsSome terms.free) drop)
        net.old net.new (J.state journal.old) (J.state journal.new) result }
    ensures refines { Refines false (of_net net.new) (of_net net.old) }
{
    match journal.note(&Note::Begin(Command::Drop)) {
        Ok(()) => {}
        Err(_failed) => return Err(Stop::Note),
    }
    match remove_each(alloc, net, terms, journal) {
        Ok(()) => end(net, journal),
        Err(stop) => Err(stop),
    }
}
