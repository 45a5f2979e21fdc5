ghost use Rattle.std.specs.Prelude.{IfOk, IfErr};
ghost use Rattle.mv_task.specs.Stops.{Gives, IsCause, WasBegun};
ghost use Rattle.mv_check.specs.Certificates.{SaysSteps, certificate_stage};
ghost use Rattle.mv_check.specs.Tellings.{text_line};

use crate::fault::CertificateFault;
use mv_base::{Files, Items, MAX_CERTIFICATE_BYTES};
use mv_cert::{Step, StepFault, read_cert};
use mv_files::{LinesStop, read_lines};
use mv_lex::LexFault;
use mv_task::Stop;
use std::alloc::Global;

/// Reads the certificate of this name, and gives its steps. The file is begun once, and no other is.
#[tactic(auto, using(crate::proofs::Takes::takes_certificate))]
pub fn take_certificate<F: Files>(
    alloc: Global,
    name: &str,
    files: &mut F,
) -> Result<Items<Step>, Stop<CertificateFault>>
    ensures gives { IfOk result (Gives SaysSteps (certificate_stage name.now)
        (F.state files.old) (F.state files.new)) }
    ensures stops { IfErr result (IsCause text_line (certificate_stage name.now)
        (F.state files.old) (F.state files.new)) }
    ensures begun { WasBegun (certificate_stage name.now) (F.state files.old)
        (F.state files.new) }
{
    let lines = match read_lines(alloc, files, name, MAX_CERTIFICATE_BYTES) {
        Ok(lines) => lines,
        Err(LinesStop::Failed) => return Err(Stop::Read),
        Err(LinesStop::Lex(LexFault::Memory)) => return Err(Stop::Memory),
        Err(LinesStop::Lex(fault)) => return Err(Stop::Refused(CertificateFault::Lex(fault))),
    };
    match read_cert(&lines) {
        Ok(steps) => Ok(steps),
        Err(StepFault::Memory) => Err(Stop::Memory),
        Err(fault) => Err(Stop::Refused(CertificateFault::Step(fault))),
    }
}
