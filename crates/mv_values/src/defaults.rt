ghost use Rattle.std.specs.Prelude.{false};
ghost use Rattle.mv_base.specs.Meaning.{Refines};
ghost use Rattle.mv_entry.specs.declared.note.Command.TheVariants.{Default as default_command};
ghost use Rattle.mv_net.specs.Allowed.{of_net};
ghost use Rattle.mv_partial.specs.Partial.{ArePartial};
ghost use Rattle.mv_pass.specs.Going.{Begun, Does};
ghost use Rattle.mv_pass.specs.Passing.{Passes};
ghost use Rattle.mv_values.specs.Defaults.{DefaultsAll, DefaultsSome};

use crate::Stop;
use crate::defaulting::visit;
use mv_base::NetId;
use mv_entry::{Command, Journal, Note};
use mv_net::Network;
use mv_partial::{PartialNets, partial_nets};
use mv_pass::end;
use mv_rules::Terms;
use std::alloc::Global;

/// Visits all nets, ascending.
fn visit_each<J: Journal>(
    alloc: Global,
    net: &mut Network,
    partial: &mut PartialNets,
    terms: Terms,
    journal: &mut J,
) -> Result<(), Stop>
    requires { ArePartial net.old.nets partial.old }
    ensures { Passes terms.free DefaultsAll DefaultsSome net.old net.new
        (J.state journal.old) (J.state journal.new) result }
{
    for number in 0..net.next_number() {
        match visit(alloc, net, partial, NetId(number), terms, journal) {
            Ok(()) => {}
            Err(stop) => return Err(stop),
        }
    }
    Ok(())
}

/// All steps of `default`.
fn default_tables<J: Journal>(
    alloc: Global,
    net: &mut Network,
    terms: Terms,
    journal: &mut J,
) -> Result<(), Stop>
    ensures passes { Passes terms.free DefaultsAll DefaultsSome net.old net.new
        (J.state journal.old) (J.state journal.new) result }
    ensures refines { Refines false (of_net net.new) (of_net net.old) }
{
    net.well_formed();
    let mut partial = match partial_nets(alloc, net) {
        Ok(partial) => partial,
        Err(_memory) => return Err(Stop::Memory),
    };
    match visit_each(alloc, net, &mut partial, terms, journal) {
        Ok(()) => Ok(()),
        Err(stop) => Err(stop),
    }
}

/// The command `default`: visits each net, ascending. A table that is total, plainly deterministic and without default takes the value
/// as default whose lines have the most literals, the least such value, in place of these lines, where they have a literal. It is noted
/// that a table without default stays which isn't so, or below which another isn't total, or whose own window is too wide. The network
/// that is left may take the place of the old one, whatever is free, also where the command stops.
pub fn choose_default<J: Journal>(
    alloc: Global,
    net: &mut Network,
    journal: &mut J,
    terms: Terms,
) -> Result<(), Stop>
    ensures passes { Passes terms.free (Does DefaultsAll default_command)
        (Begun DefaultsAll DefaultsSome default_command)
        net.old net.new (J.state journal.old) (J.state journal.new) result }
    ensures refines { Refines false (of_net net.new) (of_net net.old) }
{
    match journal.note(&Note::Begin(Command::Default)) {
        Ok(()) => {}
        Err(_failed) => return Err(Stop::Note),
    }
    match default_tables(alloc, net, terms, journal) {
        Ok(()) => end(net, journal),
        Err(stop) => Err(stop),
    }
}
