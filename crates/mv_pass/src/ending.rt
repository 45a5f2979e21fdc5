ghost use Rattle.mv_pass.specs.Ending.{Ends};

use crate::Stop;
use crate::laws::few_literals;
use mv_entry::{Journal, Note};
use mv_net::Network;

/// Ends a command: notes the literals that the network has.
pub fn end<J: Journal>(net: &Network, journal: &mut J) -> Result<(), Stop>
    ensures { Ends net.now (J.state journal.old) (J.state journal.new) result }
{
    few_literals(net);
    match journal.note(&Note::End(net.literals())) {
        Ok(()) => Ok(()),
        Err(_failed) => Err(Stop::Note),
    }
}
