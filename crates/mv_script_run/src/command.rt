ghost use Rattle.std.specs.Prelude.{◌≡◌, true};
ghost use Rattle.mv_script.specs.Commands.{is_lawful};
ghost use Rattle.mv_script_run.specs.Commands.{PassesCommand};

use mv_choose::determinize;
use mv_collapse::collapse;
use mv_eliminate::eliminate;
use mv_encode::encode;
use mv_entry::{Command, Journal};
use mv_extract::{cube, kernel};
use mv_fill::fill;
use mv_merge::merge;
use mv_net::Network;
use mv_pass::Stop;
use mv_rules::Terms;
use mv_simplify::simplify;
use mv_sweep::{remove_unread, sweep};
use mv_values::choose_default;
use std::alloc::Global;

/// Runs a command of a script.
pub fn run_command<J: Journal>(
    alloc: Global,
    net: &mut Network,
    command: &Command,
    terms: Terms,
    journal: &mut J,
) -> Result<(), Stop>
    requires { is_lawful command.now ≡ true }
    ensures { PassesCommand terms command.now net.old net.new (J.state journal.old)
        (J.state journal.new) result }
{
    match command {
        Command::Drop => remove_unread(alloc, net, journal, terms),
        Command::Sweep => sweep(alloc, net, journal, terms),
        Command::Eliminate => eliminate(alloc, net, journal, terms),
        Command::Collapse(name) => collapse(alloc, net, name, journal, terms),
        Command::Kernel => kernel(alloc, net, journal, terms),
        Command::Cube => cube(alloc, net, journal, terms),
        Command::Simplify(down, up) => simplify(alloc, net, *down, *up, journal, terms),
        Command::Merge => merge(alloc, net, journal, terms),
        Command::Default => choose_default(alloc, net, journal, terms),
        Command::Determinize => determinize(alloc, net, journal, terms),
        Command::Encode => encode(alloc, net, journal, terms),
        Command::Fill => fill(alloc, net, journal, terms),
    }
}
