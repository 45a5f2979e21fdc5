ghost use Rattle.std.specs.Prelude.{◌≤◌};
ghost use Rattle.mv_format.specs.BlifMv.{blif_mv};
ghost use Rattle.mv_task.specs.Ends.{Ends, seen};
ghost use Rattle.mv_work.specs.declared.work.TheConstants.{MAX_WORK_TABLES, MIN_WORK_TABLES};
ghost use Rattle.mv_opt.specs.Optimised.{drawn, opt_task};

use crate::output::Output;
use crate::take::{take_drawn, take_script};
use crate::working::carry_out;
use mv_base::{Files, Sink};
use mv_format::FileFormat;
use mv_rules::Terms;
use mv_task::refuse;
use std::alloc::Global;

/// Draws a network of `size` tables from `seed`, and runs the named script on it, as `optimise` does on that of a
/// file; but what is written to `out` is a summary: how many nets are left, the literals before and after, and how many commands
/// began, rules applied and steps were dropped. The network is for measuring: `mv_work` says how it is drawn.
pub fn work<F: Files, O: Sink, E: Sink>(
    alloc: Global,
    size: u32,
    seed: u64,
    script: &str,
    terms: Terms,
    files: &mut F,
    out: &mut O,
    notes: &mut E,
) -> u8
    requires least { MIN_WORK_TABLES ≤ size }
    requires most { size ≤ MAX_WORK_TABLES }
    ensures { Ends (opt_task blif_mv terms (drawn size seed) script.now)
        (seen (F.state files.old) (O.state out.old) (E.state notes.old))
        (seen (F.state files.new) (O.state out.new) (E.state notes.new)) result }
{
    let script = match take_script(alloc, script, files) {
        Ok(script) => script,
        Err(stop) => return refuse(&stop, 3, notes),
    };
    let file = match take_drawn(alloc, size, seed) {
        Ok(file) => file,
        Err(stop) => return refuse(&stop, 2, notes),
    };
    let format = FileFormat::BlifMv;
    let output = Output::Summary;
    carry_out(alloc, format, file, &script, terms, output, out, notes)
}
