ghost use Rattle.std.specs.Prelude.{◌≡◌, false, IfOk, MatchOption, OnOk};
ghost use Rattle.mv_agenda.specs.Agenda.{AllWait};
ghost use Rattle.mv_base.specs.Meaning.{Refines, SameMeaning};
ghost use Rattle.mv_entry.specs.declared.note.Command.TheVariants.{Merge as merge_command};
ghost use Rattle.mv_merge.specs.Merges.{CanMerge, IsFirstMerge, IsLeastMerge, IsMerged, MergesAll, MergesSome};
ghost use Rattle.mv_merge.specs.Search.{IsNext};
ghost use Rattle.mv_merging.specs.Nets.{net_behind};
ghost use Rattle.mv_net.specs.Allowed.{of_net};
ghost use Rattle.mv_pass.specs.Going.{Begun, Does};
ghost use Rattle.mv_pass.specs.Passing.{Passes};

use crate::Stop;
use mv_agenda::{Agenda, put_near};
use mv_alike::{NextMerge, next_merge};
use mv_base::{Memory, Name, NetId};
use mv_entry::{Command, Journal, Note, Rule};
use mv_net::Network;
use mv_pass::{end, take};
use mv_rules::Terms;
use std::alloc::Global;

/// A net, and the merge of its values that comes first.
#[derive(Clone, Copy)]
struct Found {
    n: NetId,
    next: NextMerge,
}

/// The merge that comes first at the net of this number, if nobody outside sees it and it has one.
fn merge_at(alloc: Global, net: &Network, n: NetId) -> Result<Option<NextMerge>, Memory>
    ensures { IfOk result
        (λ next. MatchOption next (CanMerge net.now n.0 → ⊥) (IsFirstMerge net.now n.0)) }
{
    if !net.holds(n) {
        return Ok(None);
    }
    if net.is_seen(n) {
        return Ok(None);
    }
    next_merge(alloc, net, n)
}

/// The least net that waits and has a merge, with that merge; those before it wait no more.
fn next_found(alloc: Global, net: &Network, agenda: &mut Agenda) -> Result<Option<Found>, Memory>
    requires { AllWait (CanMerge net.now) agenda.old }
    ensures { IfOk result
        (λ found. MatchOption found (IsMerged net.now)
        (λ f. IsNext net.now agenda.new f.n.0 f.next)) }
{
    'looking: loop {
        let Some(n) = agenda.take_least() else {
            return Ok(None);
        };
        match merge_at(alloc, net, n) {
            Ok(Some(next)) => return Ok(Some(Found { n, next })),
            Ok(None) => {}
            Err(memory) => return Err(memory),
        }
    }
}

/// Merges values of the net, which is the least that has a merge, and notes it.
fn step<J: Journal>(
    alloc: Global,
    net: &mut Network,
    found: &Found,
    terms: Terms,
    journal: &mut J,
) -> Result<(), Stop>
    requires { IsLeastMerge net.old found.now.n.0 found.now.next }
    ensures passes { Passes terms.free (MergesSome terms.free)
        (MergesSome terms.free) net.old net.new
        (J.state journal.old) (J.state journal.new) result }
    ensures behind { OnOk result
        (net.new ≡ net_behind net.old found.now.n.0 found.now.next.gone found.now.next.into) }
    ensures means { SameMeaning (of_net net.new) (of_net net.old) }
{
    net.well_formed();
    let name = match Name::new(alloc, net.name(found.n)) {
        Ok(name) => name,
        Err(_memory) => return Err(Stop::Memory),
    };
    let rule = Rule::Merge {
        net: name,
        gone: found.next.gone,
        into: found.next.into,
    };
    match take(alloc, net, &rule, terms, journal) {
        Ok(()) => Ok(()),
        Err(stop) => Err(stop),
    }
}

/// Makes the merge that comes first at the least net that has one, until there is none. A merge changes tables near its net
/// alone, so that what is near waits again, and the least that waits and has a merge is the least of all.
fn merge_each<J: Journal>(
    alloc: Global,
    net: &mut Network,
    terms: Terms,
    journal: &mut J,
) -> Result<(), Stop>
    ensures passes { Passes terms.free (MergesAll terms.free)
        (MergesSome terms.free) net.old net.new
        (J.state journal.old) (J.state journal.new) result }
    ensures means { SameMeaning (of_net net.new) (of_net net.old) }
{
    let mut agenda = match Agenda::of_all(alloc, net.next_number()) {
        Ok(agenda) => agenda,
        Err(_memory) => return Err(Stop::Memory),
    };
    'merging: loop {
        let found = match next_found(alloc, net, &mut agenda) {
            Ok(Some(found)) => found,
            Ok(None) => return Ok(()),
            Err(_memory) => return Err(Stop::Memory),
        };
        net.well_formed();
        match put_near(&mut agenda, net, found.n) {
            Ok(()) => {}
            Err(_memory) => return Err(Stop::Memory),
        }
        match step(alloc, net, &found, terms, journal) {
            Ok(()) => {}
            Err(stop) => return Err(stop),
        }
    }
}

/// The command `merge`: at the least-numbered net that nobody outside sees and that has a table and several values, the least value
/// that the table never gives goes, or else of the first two values that no literal tells apart the greater into the lesser, until
/// there is none; it notes the beginning, each merge and the end. What the network means stays, also where the command stops.
pub fn merge<J: Journal>(
    alloc: Global,
    net: &mut Network,
    journal: &mut J,
    terms: Terms,
) -> Result<(), Stop>
    ensures passes { Passes terms.free (Does (MergesAll terms.free) merge_command)
        (Begun (MergesAll terms.free) (MergesSome terms.free) merge_command)
        net.old net.new (J.state journal.old) (J.state journal.new) result }
    ensures refines { Refines false (of_net net.new) (of_net net.old) }
{
    match journal.note(&Note::Begin(Command::Merge)) {
        Ok(()) => {}
        Err(_failed) => return Err(Stop::Note),
    }
    match merge_each(alloc, net, terms, journal) {
        Ok(()) => end(net, journal),
        Err(stop) => Err(stop),
    }
}
