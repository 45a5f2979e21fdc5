ghost use Rattle.std.specs.Prelude.{◌≡◌, ◌≤◌, true, IfOk, IfErr};
ghost use Rattle.mv_base.specs.Outside.{Stored};
ghost use Rattle.mv_format.specs.BlifMv.{blif_mv};
ghost use Rattle.mv_format.specs.Faults.{net_line};
ghost use Rattle.mv_format.specs.Formats.{network_stage};
ghost use Rattle.mv_rules_back.specs.Names.{HasWordNames};
ghost use Rattle.mv_script.specs.Commands.{are_lawful};
ghost use Rattle.mv_script.specs.Scripts.{items_of};
ghost use Rattle.mv_task.specs.Stops.{Gives, IsCause, WasBegun};
ghost use Rattle.mv_work.specs.declared.work.TheConstants.{MAX_WORK_TABLES, MIN_WORK_TABLES};
ghost use Rattle.mv_opt.specs.Optimised.{drawn};
ghost use Rattle.mv_script.specs.Grammar.{IsScript};
ghost use Rattle.mv_opt.specs.Scripts.{refusal_line, script_stage};

use crate::fault::ScriptRefusal;
use mv_base::{Files, MAX_SCRIPT_BYTES};
use mv_files::{ReadStop, read_file};
use mv_format::{FileFault, FileNetwork, network_of_text};
use mv_script::{Script, ScriptFault, read_script};
use mv_task::Stop;
use mv_work::work_text;
use std::alloc::Global;

/// Reads the script file of this name. It is begun once, and no other is.
#[tactic(auto, using(crate::proofs::Takes::takes_script))]
pub fn take_script<F: Files>(
    alloc: Global,
    name: &str,
    files: &mut F,
) -> Result<Script, Stop<ScriptRefusal>>
    ensures gives { IfOk result (λ script. Gives IsScript (script_stage name.now)
        (F.state files.old) (F.state files.new) (items_of script)) }
    ensures lawful { IfOk result (λ script. are_lawful (items_of script) ≡ true) }
    ensures stops { IfErr result (IsCause refusal_line (script_stage name.now)
        (F.state files.old) (F.state files.new)) }
    ensures begun { WasBegun (script_stage name.now) (F.state files.old) (F.state files.new) }
{
    let text = match read_file(alloc, files, name, MAX_SCRIPT_BYTES) {
        Ok(text) => text,
        Err(ReadStop::Failed) => return Err(Stop::Read),
        Err(ReadStop::Memory) => return Err(Stop::Memory),
    };
    match read_script(alloc, text.as_slice()) {
        Ok(script) => Ok(script),
        Err(ScriptFault::Text(fault)) => Err(Stop::Refused(ScriptRefusal { fault })),
        Err(ScriptFault::Memory) => Err(Stop::Memory),
    }
}

/// Draws a network of so many tables from the seed. No file is begun.
pub fn take_drawn(alloc: Global, size: u32, seed: u64) -> Result<FileNetwork, Stop<FileFault>>
    requires least { MIN_WORK_TABLES ≤ size }
    requires most { size ≤ MAX_WORK_TABLES }
    ensures gives { IfOk result (λ f. (files : Stored)
        → Gives blif_mv.IsNet (network_stage blif_mv (drawn size seed)) files files f) }
    ensures names { IfOk result (λ f. HasWordNames f.net.nets) }
    ensures stops { IfErr result (λ stop. (files : Stored)
        → IsCause net_line (network_stage blif_mv (drawn size seed)) files files stop) }
{
    let text = match work_text(alloc, size, seed) {
        Ok(text) => text,
        Err(_memory) => return Err(Stop::Memory),
    };
    match network_of_text(alloc, text.as_slice()) {
        Ok(file) => Ok(file),
        Err(stop) => Err(stop),
    }
}
