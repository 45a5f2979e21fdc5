ghost use Rattle.std.specs.Prelude.{◌≤◌, false};
ghost use Rattle.mv_base.specs.declared.limits.TheConstants.{MAX_WINDOW_STEPS};
ghost use Rattle.mv_base.specs.Meaning.{Refines};
ghost use Rattle.mv_entry.specs.declared.note.Command.TheVariants.{Simplify as simplify_command};
ghost use Rattle.mv_net.specs.Allowed.{of_net};
ghost use Rattle.mv_partial.specs.Partial.{ArePartial};
ghost use Rattle.mv_pass.specs.Going.{Begun, Does};
ghost use Rattle.mv_pass.specs.Passing.{Passes};
ghost use Rattle.mv_simplify.specs.Simplifies.{SimplifiesAll, SimplifiesSome};
ghost use Rattle.mv_simplify.specs.Simplifying.{IsWithin};

use crate::Stop;
use crate::asked::Asked;
use crate::visiting::visit;
use mv_base::NetId;
use mv_entry::{Command, Journal, Note};
use mv_net::Network;
use mv_partial::{PartialNets, partial_nets};
use mv_pass::end;
use mv_rules::Terms;
use std::alloc::Global;

/// Visits all nets, ascending.
fn visit_each<J: Journal>(
    alloc: Global,
    net: &mut Network,
    partial: &mut PartialNets,
    asked: Asked,
    journal: &mut J,
) -> Result<(), Stop>
    requires within { IsWithin asked }
    requires right { ArePartial net.old.nets partial.old }
    ensures { Passes asked.terms.free (SimplifiesAll asked.terms asked.down asked.up)
        (SimplifiesSome asked.terms asked.down asked.up) net.old net.new
        (J.state journal.old) (J.state journal.new) result }
{
    for number in 0..net.next_number() {
        match visit(alloc, net, partial, NetId(number), asked, journal) {
            Ok(()) => {}
            Err(stop) => return Err(stop),
        }
    }
    Ok(())
}

/// All steps of `simplify`.
fn simplify_tables<J: Journal>(
    alloc: Global,
    net: &mut Network,
    asked: Asked,
    journal: &mut J,
) -> Result<(), Stop>
    requires { IsWithin asked }
    ensures passes { Passes asked.terms.free (SimplifiesAll asked.terms asked.down asked.up)
        (SimplifiesSome asked.terms asked.down asked.up) net.old net.new
        (J.state journal.old) (J.state journal.new) result }
    ensures refines { Refines false (of_net net.new) (of_net net.old) }
{
    net.well_formed();
    let mut partial = match partial_nets(alloc, net) {
        Ok(partial) => partial,
        Err(_memory) => return Err(Stop::Memory),
    };
    match visit_each(alloc, net, &mut partial, asked, journal) {
        Ok(()) => Ok(()),
        Err(stop) => Err(stop),
    }
}

/// The command `simplify D U`: visits each net, ascending. A net's table is made tight in the window that goes `d` steps down from
/// the net and from there `u` steps up; but it is noted that it stays, where a table below isn't total or there is no flexibility in
/// the window. The network that is left may take the place of the old one, whatever is free, also where the command stops.
pub fn simplify<J: Journal>(
    alloc: Global,
    net: &mut Network,
    d: u8,
    u: u8,
    journal: &mut J,
    terms: Terms,
) -> Result<(), Stop>
    requires down { d ≤ MAX_WINDOW_STEPS }
    requires up { u ≤ MAX_WINDOW_STEPS }
    ensures passes { Passes terms.free (Does (SimplifiesAll terms d u) (simplify_command d u))
        (Begun (SimplifiesAll terms d u) (SimplifiesSome terms d u) (simplify_command d u))
        net.old net.new (J.state journal.old) (J.state journal.new) result }
    ensures refines { Refines false (of_net net.new) (of_net net.old) }
{
    match journal.note(&Note::Begin(Command::Simplify(d, u))) {
        Ok(()) => {}
        Err(_failed) => return Err(Stop::Note),
    }
    let asked = Asked {
        down: d,
        up: u,
        terms,
    };
    match simplify_tables(alloc, net, asked, journal) {
        Ok(()) => end(net, journal),
        Err(stop) => Err(stop),
    }
}
