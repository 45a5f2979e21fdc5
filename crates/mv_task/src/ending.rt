ghost use Rattle.mv_base.specs.Outside.{Appends};
ghost use Rattle.mv_net.specs.Nets.{literals_in};
ghost use Rattle.mv_task.specs.Ending.{done_line};

use mv_base::{Failed, Sink};
use mv_entry::{Note, put_note};
use mv_net::Network;

/// Puts the done line to the notes, behind a network that had so many literals. It takes no memory.
pub fn put_done<E: Sink>(net: &Network, before: u128, notes: &mut E) -> Result<(), Failed>
    ensures { Appends (E.state notes.old) (E.state notes.new)
        (done_line before (literals_in net.now.nets)) result }
{
    put_note(&Note::Done(before, net.literals()), notes)
}
