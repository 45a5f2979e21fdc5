ghost use Rattle.std.specs.Prelude.{◌≡◌, ◌≤◌, true, Err, IfOk};
ghost use Rattle.mv_rules_back.specs.Names.{HasWordNames};
ghost use Rattle.mv_base.specs.Outside.{Gained, GainedPart, Rose};
ghost use Rattle.mv_format.specs.Chosen.{format_of, HasSettings};
ghost use Rattle.mv_script.specs.Commands.{are_lawful};
ghost use Rattle.mv_script.specs.Scripts.{items_of};
ghost use Rattle.mv_task.specs.Ends.{WorkEnds, sinks};
ghost use Rattle.mv_opt.specs.Optimised.{opt_work};
ghost use Rattle.mv_opt.specs.Running.{HasRun, Puts};

use crate::output::{Output, put_output};
use mv_base::Sink;
use mv_cert::NoteJournal;
use mv_entry::{Journal, Tally};
use mv_format::{FileFormat, FileNetwork};
use mv_net::Network;
use mv_pass::Stop;
use mv_rules::Terms;
use mv_script::Script;
use mv_script_run::run_script;
use mv_task::{put_done, tell};
use std::alloc::Global;

/// Runs the script on the network on these terms, puts what it does to the notes, and counts it.
#[tactic(auto, using(crate::proofs::Works::noted))]
fn run_noted<E: Sink>(
    alloc: Global,
    net: &mut Network,
    script: &Script,
    terms: Terms,
    notes: &mut E,
) -> Result<Tally, Stop>
    requires { are_lawful (items_of script.now) ≡ true }
    ensures ok { IfOk result (HasRun terms (items_of script.now) net.old net.new
        (E.state notes.old) (E.state notes.new)) }
    ensures memory { result ≡ Err Stop.Memory → Puts terms (items_of script.now) net.old net.new
        (Gained (E.state notes.old) (E.state notes.new)) }
    ensures note { result ≡ Err Stop.Note → Puts terms (items_of script.now) net.old net.new
        (GainedPart (E.state notes.old) (E.state notes.new)) }
    ensures cause { result ≡ Err Stop.Note
        → Rose (E.state notes.old).faults (E.state notes.new).faults }
    ensures later { (E.state notes.old).faults ≤ (E.state notes.new).faults }
{
    let mut journal = NoteJournal::new(notes);
    match run_script(alloc, net, script, terms, &mut journal) {
        Ok(()) => Ok(journal.tally()),
        Err(stop) => Err(stop),
    }
}

/// Runs the script on the network on these terms, and puts what it does and the done line to the notes, and then what is to be written to the
/// output. From the done line on it takes no memory. The answer is the status.
pub fn carry_out<O: Sink, E: Sink>(
    alloc: Global,
    format: FileFormat,
    mut file: FileNetwork,
    script: &Script,
    terms: Terms,
    output: Output,
    out: &mut O,
    notes: &mut E,
) -> u8
    requires names { HasWordNames file.net.nets }
    requires settings { HasSettings format file }
    requires lawful { are_lawful (items_of script.now) ≡ true }
    ensures { WorkEnds (opt_work (format_of format) terms output (items_of script.now) file)
        (sinks (O.state out.old) (E.state notes.old)) (sinks (O.state out.new) (E.state notes.new))
        result }
{
    file.net.well_formed();
    let before = file.net.literals();
    let tally = match run_noted(alloc, &mut file.net, script, terms, notes) {
        Ok(tally) => tally,
        Err(Stop::Note) => return 5,
        Err(Stop::Memory) => {
            tell(b"# fault memory\n", notes);
            return 6;
        }
    };
    match put_done(&file.net, before, notes) {
        Ok(()) => {}
        Err(_failed) => return 5,
    }
    match put_output(output, format, &file, before, tally, out) {
        Ok(()) => 0,
        Err(_failed) => 5,
    }
}
