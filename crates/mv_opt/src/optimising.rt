ghost use Rattle.mv_format.specs.Chosen.{format_of};
ghost use Rattle.mv_task.specs.Ends.{Ends, seen};
ghost use Rattle.mv_task.specs.Sources.{File};
ghost use Rattle.mv_opt.specs.Optimised.{opt_task};

use crate::output::Output;
use crate::take::take_script;
use crate::working::carry_out;
use mv_base::{Files, Sink};
use mv_format::{FileFormat, take_network};
use mv_rules::Terms;
use mv_task::refuse;
use std::alloc::Global;

/// Reads the script and the network file of these names, the latter in this format, runs the script on the network, and writes to `out` a network
/// that may take the place of the one read, on these terms. What the commands do is put to `notes` as they do it, and then the line that says how it
/// ended: for status 0 before `out` is begun, so that it is there too where `out` fails; status 5 has no line.
pub fn optimise<F: Files, O: Sink, E: Sink>(
    alloc: Global,
    format: FileFormat,
    network: &str,
    script: &str,
    terms: Terms,
    files: &mut F,
    out: &mut O,
    notes: &mut E,
) -> u8
    ensures { Ends (opt_task (format_of format) terms (File network.now) script.now)
        (seen (F.state files.old) (O.state out.old) (E.state notes.old))
        (seen (F.state files.new) (O.state out.new) (E.state notes.new)) result }
{
    let script = match take_script(alloc, script, files) {
        Ok(script) => script,
        Err(stop) => return refuse(&stop, 3, notes),
    };
    let file = match take_network(alloc, format, network, files) {
        Ok(file) => file,
        Err(stop) => return refuse(&stop, 2, notes),
    };
    let output = Output::Network;
    carry_out(alloc, format, file, &script, terms, output, out, notes)
}
