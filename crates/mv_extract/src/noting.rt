ghost use Rattle.mv_extract.specs.Dividing.{behind_of, behind_some, candidates_of};
ghost use Rattle.mv_extract.specs.Extracts.{EndsBy, NotesKernels};
ghost use Rattle.mv_gains.specs.Candidates.{HasManyKernels, IsBest};
ghost use Rattle.mv_pass.specs.Courses.{Perhaps, VisitsAll, VisitsSome};
ghost use Rattle.mv_pass.specs.Passing.{Passes};
ghost use Rattle.mv_plans.specs.Checks.{HasRoom};

use crate::Stop;
use crate::kind::Divisors;
use mv_base::{Name, NetId};
use mv_cover::Cube;
use mv_entry::{Journal, Note, Why};
use mv_gains::has_many_kernels;
use mv_net::Network;
use mv_rules::Terms;
use std::alloc::Global;

/// Notes that a cover of the net's table has too many kernels.
fn note_one<J: Journal>(
    alloc: Global,
    net: &Network,
    n: NetId,
    terms: Terms,
    journal: &mut J,
) -> Result<(), Stop>
    requires { HasManyKernels net.now.nets n.0 }
    ensures { Passes terms.free (NotesKernels n.0) (Perhaps (NotesKernels n.0)) net.now net.now
        (J.state journal.old) (J.state journal.new) result }
{
    net.well_formed();
    let name = match Name::new(alloc, net.name(n)) {
        Ok(name) => name,
        Err(_memory) => return Err(Stop::Memory),
    };
    match journal.note(&Note::Dropped(Why::Kernels, name)) {
        Ok(()) => Ok(()),
        Err(_failed) => Err(Stop::Note),
    }
}

/// Visits the net of this number: notes it where a cover of its table has too many kernels.
fn visit<J: Journal>(
    alloc: Global,
    net: &Network,
    n: NetId,
    terms: Terms,
    journal: &mut J,
) -> Result<(), Stop>
    ensures { Passes terms.free (NotesKernels n.0) (Perhaps (NotesKernels n.0)) net.now net.now
        (J.state journal.old) (J.state journal.new) result }
{
    match has_many_kernels(alloc, net, n) {
        Ok(true) => note_one(alloc, net, n, terms, journal),
        Ok(false) => Ok(()),
        Err(_memory) => Err(Stop::Memory),
    }
}

/// Notes each net of whose table a cover has too many kernels, ascending.
fn note_kernels<J: Journal>(
    alloc: Global,
    net: &Network,
    terms: Terms,
    journal: &mut J,
) -> Result<(), Stop>
    ensures { Passes terms.free (VisitsAll NotesKernels) (VisitsSome NotesKernels) net.now net.now
        (J.state journal.old) (J.state journal.new) result }
{
    for number in 0..net.next_number() {
        match visit(alloc, net, NetId(number), terms, journal) {
            Ok(()) => {}
            Err(stop) => return Err(stop),
        }
    }
    Ok(())
}

/// What comes behind, where no divisor saves any more: the notes of `kernel`.
pub fn note_behind<J: Journal>(
    alloc: Global,
    net: &Network,
    divisors: Divisors,
    terms: Terms,
    journal: &mut J,
) -> Result<(), Stop>
    ensures { Passes terms.free (behind_of divisors) (behind_some divisors) net.now net.now
        (J.state journal.old) (J.state journal.new) result }
{
    match divisors {
        Divisors::Kernels => note_kernels(alloc, net, terms, journal),
        Divisors::Cubes => Ok(()),
    }
}

/// Notes that no number is left for the net that was to come.
pub fn note_full<J: Journal>(
    net: &Network,
    divisors: Divisors,
    divisor: &[Cube],
    terms: Terms,
    journal: &mut J,
) -> Result<(), Stop>
    requires best { IsBest (candidates_of divisors) net.now.nets divisor.now }
    requires full { HasRoom net.now.nets → ⊥ }
    ensures { Passes terms.free (EndsBy (candidates_of divisors) (behind_of divisors))
        (Perhaps (EndsBy (candidates_of divisors) (behind_some divisors))) net.now net.now
        (J.state journal.old) (J.state journal.new) result }
{
    let name = match net.fresh_name(0) {
        Ok(name) => name,
        Err(_memory) => return Err(Stop::Memory),
    };
    match journal.note(&Note::Dropped(Why::Nets, name)) {
        Ok(()) => Ok(()),
        Err(_failed) => Err(Stop::Note),
    }
}
