ghost use Rattle.std.specs.Prelude.{IfOk, IfErr};
ghost use Rattle.mv_task.specs.Stops.{Gives, IsCause, WasBegun};
ghost use Rattle.mv_tracing.specs.RunFiles.{SaysLines, refusal_line, run_stage};

use crate::fault::RunRefusal;
use mv_base::{Files, MAX_NETWORK_BYTES};
use mv_files::{LinesStop, read_lines};
use mv_lex::{LexFault, Lines};
use mv_task::Stop;
use std::alloc::Global;

/// Reads the run file of this name, and gives its lines. The file is begun once, and no other is.
#[tactic(auto, using(crate::proofs::Takes::takes_lines))]
pub fn take_lines<F: Files>(
    alloc: Global,
    name: &str,
    files: &mut F,
) -> Result<Lines, Stop<RunRefusal>>
    ensures gives { IfOk result (Gives SaysLines (run_stage name.now)
        (F.state files.old) (F.state files.new)) }
    ensures stops { IfErr result (IsCause refusal_line (run_stage name.now)
        (F.state files.old) (F.state files.new)) }
    ensures begun { WasBegun (run_stage name.now) (F.state files.old) (F.state files.new) }
{
    match read_lines(alloc, files, name, MAX_NETWORK_BYTES) {
        Ok(lines) => Ok(lines),
        Err(LinesStop::Failed) => Err(Stop::Read),
        Err(LinesStop::Lex(LexFault::Memory)) => Err(Stop::Memory),
        Err(LinesStop::Lex(fault)) => Err(Stop::Refused(RunRefusal { fault })),
    }
}
