ghost use Rattle.std.specs.Prelude.{false};
ghost use Rattle.mv_base.specs.Meaning.{Refines};
ghost use Rattle.mv_encode.specs.Encodes.{EncodesAll, EncodesSome, IsFull, RunsOut};
ghost use Rattle.mv_entry.specs.declared.note.Command.TheVariants.{Encode as encode_command};
ghost use Rattle.mv_net.specs.Allowed.{of_net};
ghost use Rattle.mv_pass.specs.Courses.{Perhaps};
ghost use Rattle.mv_pass.specs.Going.{Begun, Does};
ghost use Rattle.mv_pass.specs.Passing.{Passes};

use crate::Stop;
use crate::encoding::visit;
use mv_base::{Name, NetId};
use mv_entry::{Command, Journal, Note, Why};
use mv_net::Network;
use mv_pass::end;
use mv_rules::Terms;
use std::alloc::Global;

/// Notes that the numbers run out at the net, with the name of the first net that was to come.
fn note_full<J: Journal>(
    net: &Network,
    n: NetId,
    name: Name,
    terms: Terms,
    journal: &mut J,
) -> Result<(), Stop>
    requires { IsFull net.now n.0 name }
    ensures { Passes terms.free (RunsOut n.0) (Perhaps (RunsOut n.0)) net.now net.now
        (J.state journal.old) (J.state journal.new) result }
{
    match journal.note(&Note::Dropped(Why::Nets, name)) {
        Ok(()) => Ok(()),
        Err(_failed) => Err(Stop::Note),
    }
}

/// Visits all nets, ascending, up to one at which the numbers run out. Nets that come have two values, and aren't visited.
fn visit_each<J: Journal>(
    alloc: Global,
    net: &mut Network,
    terms: Terms,
    journal: &mut J,
) -> Result<(), Stop>
    ensures { Passes terms.free EncodesAll EncodesSome net.old net.new (J.state journal.old)
        (J.state journal.new) result }
{
    for number in 0..net.next_number() {
        match visit(alloc, net, NetId(number), terms, journal) {
            Ok(None) => {}
            Ok(Some(name)) => return note_full(net, NetId(number), name, terms, journal),
            Err(stop) => return Err(stop),
        }
    }
    Ok(())
}

/// All steps of `encode`.
fn encode_nets<J: Journal>(
    alloc: Global,
    net: &mut Network,
    terms: Terms,
    journal: &mut J,
) -> Result<(), Stop>
    ensures passes { Passes terms.free EncodesAll EncodesSome net.old net.new (J.state journal.old)
        (J.state journal.new) result }
    ensures refines { Refines false (of_net net.new) (of_net net.old) }
{
    net.well_formed();
    match visit_each(alloc, net, terms, journal) {
        Ok(()) => Ok(()),
        Err(stop) => Err(stop),
    }
}

/// The command `encode`: visits each net, ascending. Where a net that isn't seen has a table and three values or more, nets of two
/// values take its place, one for each bit of the codes of its values: the values in binary, in the fewest bits. It is noted that such
/// a net stays whose table isn't plainly deterministic, or whose readers' tables would be too wide. Where the numbers of nets run out,
/// that is noted with the name of the first net that was to come, and the command ends. There may be more literals at the end. The
/// network that is left may take the place of the old one, whatever is free, also where the command stops.
pub fn encode<J: Journal>(
    alloc: Global,
    net: &mut Network,
    journal: &mut J,
    terms: Terms,
) -> Result<(), Stop>
    ensures passes { Passes terms.free (Does EncodesAll encode_command)
        (Begun EncodesAll EncodesSome encode_command) net.old net.new (J.state journal.old)
        (J.state journal.new) result }
    ensures refines { Refines false (of_net net.new) (of_net net.old) }
{
    match journal.note(&Note::Begin(Command::Encode)) {
        Ok(()) => {}
        Err(_failed) => return Err(Stop::Note),
    }
    match encode_nets(alloc, net, terms, journal) {
        Ok(()) => end(net, journal),
        Err(stop) => Err(stop),
    }
}
