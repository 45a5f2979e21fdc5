ghost use Rattle.std.specs.Prelude.{IfOk, OnOk, MatchBool};
ghost use Rattle.mv_eliminate.specs.Eliminates.{NotesWide};
ghost use Rattle.mv_pass.specs.Courses.{Perhaps, VisitsAll, VisitsSome};
ghost use Rattle.mv_pass.specs.Passing.{Passes};
ghost use Rattle.mv_gain.specs.Kept.{AreRight};
ghost use Rattle.mv_gain.specs.Savings.{IsWideNet};

use crate::Stop;
use mv_base::{Memory, Name, NetId};
use mv_entry::{Journal, Note, Why};
use mv_gain::{KeptComposites, Verdict};
use mv_net::Network;
use mv_rules::Terms;
use std::alloc::Global;

/// Whether the rule refuses to collapse the net of this number for this alone that a composite is too wide.
fn is_wide(
    alloc: Global,
    net: &Network,
    kept: &mut KeptComposites,
    n: NetId,
) -> Result<bool, Memory>
    requires { AreRight net.now.nets kept.old }
    ensures right { OnOk result (AreRight net.now.nets kept.new) }
    ensures wide { IfOk result
        (λ wide. MatchBool wide (IsWideNet net.now n.0) (IsWideNet net.now n.0 → ⊥)) }
{
    net.well_formed();
    match kept.judge(alloc, net, n) {
        Ok(Verdict::Saves) => Ok(false),
        Ok(Verdict::Wide) => Ok(true),
        Ok(Verdict::Stays) => Ok(false),
        Err(memory) => Err(memory),
    }
}

/// Notes that a composite of the net is too wide.
fn note_one<J: Journal>(
    alloc: Global,
    net: &Network,
    n: NetId,
    terms: Terms,
    journal: &mut J,
) -> Result<(), Stop>
    requires { IsWideNet net.now n.0 }
    ensures { Passes terms.free (NotesWide n.0) (Perhaps (NotesWide n.0)) net.now net.now
        (J.state journal.old) (J.state journal.new) result }
{
    net.well_formed();
    let name = match Name::new(alloc, net.name(n)) {
        Ok(name) => name,
        Err(_memory) => return Err(Stop::Memory),
    };
    match journal.note(&Note::Dropped(Why::Lines, name)) {
        Ok(()) => Ok(()),
        Err(_failed) => Err(Stop::Note),
    }
}

/// Visits the net of this number: notes it where a composite of it is too wide.
fn visit<J: Journal>(
    alloc: Global,
    net: &Network,
    kept: &mut KeptComposites,
    n: NetId,
    terms: Terms,
    journal: &mut J,
) -> Result<(), Stop>
    requires { AreRight net.now.nets kept.old }
    ensures right { OnOk result (AreRight net.now.nets kept.new) }
    ensures passes { Passes terms.free (NotesWide n.0) (Perhaps (NotesWide n.0)) net.now net.now
        (J.state journal.old) (J.state journal.new) result }
{
    match is_wide(alloc, net, kept, n) {
        Ok(true) => match note_one(alloc, net, n, terms, journal) {
            Ok(()) => Ok(()),
            Err(stop) => Err(stop),
        },
        Ok(false) => Ok(()),
        Err(_memory) => Err(Stop::Memory),
    }
}

/// Notes each net which the rule refuses to collapse for this alone that a composite is too wide, ascending.
pub fn note_wide<J: Journal>(
    alloc: Global,
    net: &Network,
    kept: &mut KeptComposites,
    terms: Terms,
    journal: &mut J,
) -> Result<(), Stop>
    requires { AreRight net.now.nets kept.old }
    ensures { Passes terms.free (VisitsAll NotesWide) (VisitsSome NotesWide) net.now net.now
        (J.state journal.old) (J.state journal.new) result }
{
    for number in 0..net.next_number() {
        match visit(alloc, net, kept, NetId(number), terms, journal) {
            Ok(()) => {}
            Err(stop) => return Err(stop),
        }
    }
    Ok(())
}
