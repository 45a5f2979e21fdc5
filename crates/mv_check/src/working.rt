ghost use Rattle.mv_check.specs.Checked.{TellsEnd, check_work};
ghost use Rattle.mv_check.specs.Tellings.{rule_line};
ghost use Rattle.mv_format.specs.Chosen.{format_of, HasSettings};
ghost use Rattle.mv_task.specs.Ends.{WorkEnds, sinks};
ghost use Rattle.mv_task.specs.Lines.{TellsLine};

use crate::tell::put_rule_line;
use mv_base::{Items, Sink};
use mv_cert::{ReplayFault, Step, replay};
use mv_entry::RuleFault;
use mv_format::{FileFormat, FileNetwork, write_network};
use mv_rules::Terms;
use mv_task::{put_done, tell};
use std::alloc::Global;

/// Puts the line of a rule that doesn't apply to the notes, as far as they take it.
fn refuse_rule<E: Sink>(line: u32, fault: RuleFault, notes: &mut E)
    ensures { TellsLine (E.state notes.old) (E.state notes.new) (rule_line line fault) }
{
    match put_rule_line(line, fault, notes) {
        Ok(()) => {}
        Err(_failed) => {}
    }
}

/// Tells why a replay ended early, as far as the notes take it, and answers the status.
fn refuse_replay<E: Sink>(fault: ReplayFault, notes: &mut E) -> u8
    ensures { TellsEnd (E.state notes.old) (E.state notes.new) fault result }
{
    match fault {
        ReplayFault::Rule { line, fault } => {
            refuse_rule(line, fault, notes);
            7
        }
        ReplayFault::Memory => {
            tell(b"# fault memory\n", notes);
            6
        }
    }
}

/// Applies the steps to the network in turn on these terms, and then puts the done line to the notes and the text of the network that
/// is left to the output. From the done line on it takes no memory. The answer is the status.
pub fn carry_out<O: Sink, E: Sink>(
    alloc: Global,
    format: FileFormat,
    mut file: FileNetwork,
    steps: &Items<Step>,
    terms: Terms,
    out: &mut O,
    notes: &mut E,
) -> u8
    requires { HasSettings format file }
    ensures { WorkEnds (check_work (format_of format) terms.free steps.now file)
        (sinks (O.state out.old) (E.state notes.old)) (sinks (O.state out.new) (E.state notes.new))
        result }
{
    file.net.well_formed();
    let before = file.net.literals();
    match replay(alloc, &mut file.net, steps.as_slice(), terms) {
        Ok(()) => {}
        Err(fault) => return refuse_replay(fault, notes),
    }
    match put_done(&file.net, before, notes) {
        Ok(()) => {}
        Err(_failed) => return 5,
    }
    match write_network(format, &file, out) {
        Ok(()) => 0,
        Err(_failed) => 5,
    }
}
