ghost use Rattle.std.specs.Prelude.{false};
ghost use Rattle.mv_base.specs.Meaning.{Refines};
ghost use Rattle.mv_choose.specs.Choices.{DeterminizesAll, DeterminizesSome};
ghost use Rattle.mv_entry.specs.declared.note.Command.TheVariants.{Determinize as determinize_command};
ghost use Rattle.mv_net.specs.Allowed.{of_net};
ghost use Rattle.mv_partial.specs.Partial.{ArePartial};
ghost use Rattle.mv_pass.specs.Going.{Begun, Does};
ghost use Rattle.mv_pass.specs.Passing.{Passes};

use crate::Stop;
use crate::choosing::visit;
use mv_base::NetId;
use mv_entry::{Command, Journal, Note};
use mv_net::Network;
use mv_partial::{PartialNets, partial_nets};
use mv_pass::end;
use mv_rules::Terms;
use std::alloc::Global;

/// Visits all nets, ascending.
fn visit_each<J: Journal>(
    alloc: Global,
    net: &mut Network,
    partial: &mut PartialNets,
    terms: Terms,
    journal: &mut J,
) -> Result<(), Stop>
    requires { ArePartial net.old.nets partial.old }
    ensures { Passes terms.free DeterminizesAll DeterminizesSome net.old net.new
        (J.state journal.old) (J.state journal.new) result }
{
    for number in 0..net.next_number() {
        match visit(alloc, net, partial, NetId(number), terms, journal) {
            Ok(()) => {}
            Err(stop) => return Err(stop),
        }
    }
    Ok(())
}

/// All steps of `determinize`.
fn determinize_tables<J: Journal>(
    alloc: Global,
    net: &mut Network,
    terms: Terms,
    journal: &mut J,
) -> Result<(), Stop>
    ensures passes { Passes terms.free DeterminizesAll DeterminizesSome net.old net.new
        (J.state journal.old) (J.state journal.new) result }
    ensures refines { Refines false (of_net net.new) (of_net net.old) }
{
    net.well_formed();
    let mut partial = match partial_nets(alloc, net) {
        Ok(partial) => partial,
        Err(_memory) => return Err(Stop::Memory),
    };
    match visit_each(alloc, net, &mut partial, terms, journal) {
        Ok(()) => Ok(()),
        Err(stop) => Err(stop),
    }
}

/// The command `determinize`: visits each net, ascending. A table that isn't plainly deterministic gives way to one that is, in which
/// each line stands only where none before it does, with the least value of its output, and the default is its least value. It is noted
/// that such a table stays below which another isn't total, or of which too many lines would come, or whose own window is too wide.
/// There may be more literals at the end. The network that is left may take the place of the old one, whatever is free, also where the
/// command stops.
pub fn determinize<J: Journal>(
    alloc: Global,
    net: &mut Network,
    journal: &mut J,
    terms: Terms,
) -> Result<(), Stop>
    ensures passes { Passes terms.free (Does DeterminizesAll determinize_command)
        (Begun DeterminizesAll DeterminizesSome determinize_command) net.old net.new
        (J.state journal.old) (J.state journal.new) result }
    ensures refines { Refines false (of_net net.new) (of_net net.old) }
{
    match journal.note(&Note::Begin(Command::Determinize)) {
        Ok(()) => {}
        Err(_failed) => return Err(Stop::Note),
    }
    match determinize_tables(alloc, net, terms, journal) {
        Ok(()) => end(net, journal),
        Err(stop) => Err(stop),
    }
}
