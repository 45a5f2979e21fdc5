ghost use Rattle.std.specs.Prelude.{◌≡◌, true};
ghost use Rattle.mv_pass.specs.Courses.{Rounds};
ghost use Rattle.mv_pass.specs.Passing.{Passes};
ghost use Rattle.mv_script.specs.Commands.{are_lawful};
ghost use Rattle.mv_script.specs.Scripts.{items_of};
ghost use Rattle.mv_script_run.specs.Runs.{Runs, RunsBetter, RunsTo, StopsBetter, StopsRepeat};

use crate::command::run_command;
use mv_entry::Journal;
use mv_net::Network;
use mv_pass::Stop;
use mv_rules::Terms;
use mv_script::{Script, has_command};
use std::alloc::Global;

/// Runs a script on these terms: its items one after the other. The network that is left may take the place of the old one, where
/// free under values where that one allows some choice, also where the script stops. Only braces within braces take stack.
#[cycle(run)]
pub fn run_script<J: Journal>(
    alloc: Global,
    net: &mut Network,
    script: &Script,
    terms: Terms,
    journal: &mut J,
) -> Result<(), Stop>
    requires { are_lawful (items_of script.now) ≡ true }
    ensures { Passes terms.free (Runs terms (items_of script.now))
        (RunsTo terms (items_of script.now)) net.old net.new
        (J.state journal.old) (J.state journal.new) result }
{
    let mut items = script;
    loop {
        match items {
            Script::End => return Ok(()),
            Script::Do(command, rest) => {
                match run_command(alloc, net, command, terms, journal) {
                    Ok(()) => {}
                    Err(stop) => return Err(stop),
                }
                items = rest;
            }
            Script::Repeat(times, inside, rest) => {
                match run_repeat(alloc, net, *times, inside, terms, journal) {
                    Ok(()) => {}
                    Err(stop) => return Err(stop),
                }
                items = rest;
            }
            Script::Better(inside, rest) => {
                match run_better(alloc, net, inside, terms, journal) {
                    Ok(()) => {}
                    Err(stop) => return Err(stop),
                }
                items = rest;
            }
        }
    }
}

/// Runs a script so many times. One without a command does nothing, however often it runs.
#[cycle(run)]
fn run_repeat<J: Journal>(
    alloc: Global,
    net: &mut Network,
    times: u16,
    inside: &Script,
    terms: Terms,
    journal: &mut J,
) -> Result<(), Stop>
    requires { are_lawful (items_of inside.now) ≡ true }
    ensures { Passes terms.free (Rounds times (Runs terms (items_of inside.now)))
        (StopsRepeat times (Runs terms (items_of inside.now))
        (RunsTo terms (items_of inside.now))) net.old net.new
        (J.state journal.old) (J.state journal.new) result }
{
    if !has_command(inside) {
        return Ok(());
    }
    for _round in 0..times {
        match run_script(alloc, net, inside, terms, journal) {
            Ok(()) => {}
            Err(stop) => return Err(stop),
        }
    }
    Ok(())
}

/// Runs a script again and again, up to the first time that the literals don't fall.
#[cycle(run)]
fn run_better<J: Journal>(
    alloc: Global,
    net: &mut Network,
    inside: &Script,
    terms: Terms,
    journal: &mut J,
) -> Result<(), Stop>
    requires { are_lawful (items_of inside.now) ≡ true }
    ensures { Passes terms.free (RunsBetter (Runs terms (items_of inside.now)))
        (StopsBetter (Runs terms (items_of inside.now))
        (RunsTo terms (items_of inside.now))) net.old net.new
        (J.state journal.old) (J.state journal.new) result }
{
    'rounds: loop {
        let before = net.literals();
        match run_script(alloc, net, inside, terms, journal) {
            Ok(()) => {}
            Err(stop) => return Err(stop),
        }
        if net.literals() >= before {
            return Ok(());
        }
    }
}
