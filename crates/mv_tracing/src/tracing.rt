ghost use Rattle.mv_format.specs.BlifMv.{blif_mv};
ghost use Rattle.mv_task.specs.Ends.{Ends, seen};
ghost use Rattle.mv_tracing.specs.Traced.{trace_task};

use crate::take::take_lines;
use crate::working::carry_out;
use mv_base::{Files, Sink};
use mv_format::{FileFormat, take_network};
use mv_task::refuse;
use std::alloc::Global;

/// Reads the network file and the run file of these names, and tells to `out` whether the network allows the run: `yes` and the values
/// of all nets in each step, or `no` and the number of the first step that isn't allowed. The answer is the status: 0 for yes, 9 for
/// no, and `notes` gains nothing at these two; 2 where the network is refused, 11 where the run file is, 4 where a file couldn't be
/// read, 5 where `out` failed, and 6 for want of memory.
pub fn trace<F: Files, O: Sink, E: Sink>(
    alloc: Global,
    network: &str,
    run: &str,
    files: &mut F,
    out: &mut O,
    notes: &mut E,
) -> u8
    ensures { Ends (trace_task blif_mv network.now run.now)
        (seen (F.state files.old) (O.state out.old) (E.state notes.old))
        (seen (F.state files.new) (O.state out.new) (E.state notes.new)) result }
{
    let file = match take_network(alloc, FileFormat::BlifMv, network, files) {
        Ok(file) => file,
        Err(stop) => return refuse(&stop, 2, notes),
    };
    let lines = match take_lines(alloc, run, files) {
        Ok(lines) => lines,
        Err(stop) => return refuse(&stop, 11, notes),
    };
    carry_out(alloc, &file.net, &lines, out, notes)
}
