ghost use Rattle.mv_check.specs.Checked.{check_task};
ghost use Rattle.mv_format.specs.Chosen.{format_of};
ghost use Rattle.mv_task.specs.Ends.{Ends, seen};

use crate::take::take_certificate;
use crate::working::carry_out;
use mv_base::{Files, Sink};
use mv_format::{FileFormat, take_network};
use mv_rules::Terms;
use mv_task::refuse;
use std::alloc::Global;

/// Reads the certificate and the network file of these names, the latter in this format, applies the certificate's rules to the network in turn on these terms,
/// and writes to `out` the network that is left, which may take the place of the one read, whatever the certificate is. The line that
/// says how it ended is put to `notes`: for status 0 before `out` is begun, so that it is there too where `out` fails; status 5 has
/// no line.
pub fn check<F: Files, O: Sink, E: Sink>(
    alloc: Global,
    format: FileFormat,
    network: &str,
    certificate: &str,
    terms: Terms,
    files: &mut F,
    out: &mut O,
    notes: &mut E,
) -> u8
    ensures { Ends (check_task (format_of format) terms.free network.now certificate.now)
        (seen (F.state files.old) (O.state out.old) (E.state notes.old))
        (seen (F.state files.new) (O.state out.new) (E.state notes.new)) result }
{
    let steps = match take_certificate(alloc, certificate, files) {
        Ok(steps) => steps,
        Err(stop) => return refuse(&stop, 7, notes),
    };
    let file = match take_network(alloc, format, network, files) {
        Ok(file) => file,
        Err(stop) => return refuse(&stop, 2, notes),
    };
    carry_out(alloc, format, file, &steps, terms, out, notes)
}
