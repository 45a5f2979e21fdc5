ghost use Rattle.std.specs.Prelude.{◌≡◌, true, IfOk, IfErr};
ghost use Rattle.mv_base.specs.Outside.{Stored};
ghost use Rattle.mv_design.specs.Proper.{numbers_ascend};
ghost use Rattle.mv_net.specs.Formed.{WellFormed};
ghost use Rattle.mv_parse_laws.specs.Lines.{numbers_of};
ghost use Rattle.mv_rules_back.specs.Names.{HasWordNames};
ghost use Rattle.mv_format.specs.Faults.{net_line};
ghost use Rattle.mv_task.specs.Sources.{File, Text};
ghost use Rattle.mv_task.specs.Stops.{Gives, IsCause, WasBegun};
ghost use Rattle.mv_format.specs.Blif.{blif_lines};
ghost use Rattle.mv_format.specs.BlifMv.{blif_mv, blif_mv_lines};
ghost use Rattle.mv_format.specs.Causes.{IsLinesCause};
ghost use Rattle.mv_format.specs.Chosen.{format_of, lines_of_format, HasSettings};
ghost use Rattle.mv_format.specs.Formats.{network_stage};

use crate::fault::FileFault;
use crate::format::FileFormat;
use mv_base::{Files, Items, MAX_NETWORK_BYTES};
use mv_blif_read::{BlifNetFault, FileNetwork, blif_network_of};
use mv_files::{LinesStop, lines_of_text, read_lines};
use mv_lex::{LexFault, Lines};
use mv_read::{NetFault, network_of};
use mv_task::Stop;
use std::alloc::Global;

/// Makes the network that some lines of BLIF-MV say.
#[tactic(auto, using(crate::proofs::Networks::network_named, crate::proofs::Networks::network_bare))]
fn blif_mv_network(alloc: Global, lines: Lines) -> Result<FileNetwork, Stop<FileFault>>
    requires { numbers_ascend (numbers_of lines) ≡ true }
    ensures net { IfOk result (blif_mv_lines.IsNet lines) }
    ensures formed { IfOk result (λ f. WellFormed f.net) }
    ensures names { IfOk result (λ f. HasWordNames f.net.nets) }
    ensures stops { IfErr result (IsLinesCause blif_mv_lines lines) }
{
    match network_of(alloc, lines) {
        Ok(net) => {
            net.well_formed();
            let latches = Items::new(alloc);
            Ok(FileNetwork { net, latches })
        }
        Err(NetFault::Parse(fault)) => Err(Stop::Refused(FileFault::Parse(fault))),
        Err(NetFault::Flat(fault)) => Err(Stop::Refused(FileFault::Flat(fault))),
        Err(NetFault::Memory) => Err(Stop::Memory),
    }
}

/// Makes the network that some lines of BLIF say, with what they say of its latches.
#[tactic(auto, using(crate::proofs::Networks::blif_network_named, crate::proofs::Networks::blif_settings))]
fn blif_network(alloc: Global, lines: Lines) -> Result<FileNetwork, Stop<FileFault>>
    requires { numbers_ascend (numbers_of lines) ≡ true }
    ensures net { IfOk result (blif_lines.IsNet lines) }
    ensures formed { IfOk result (λ f. WellFormed f.net) }
    ensures names { IfOk result (λ f. HasWordNames f.net.nets) }
    ensures settings { IfOk result (HasSettings FileFormat.Blif) }
    ensures stops { IfErr result (IsLinesCause blif_lines lines) }
{
    match blif_network_of(alloc, lines) {
        Ok(file) => {
            file.net.well_formed();
            Ok(file)
        }
        Err(BlifNetFault::Parse(fault)) => Err(Stop::Refused(FileFault::Blif(fault))),
        Err(BlifNetFault::Flat(fault)) => Err(Stop::Refused(FileFault::Flat(fault))),
        Err(BlifNetFault::Memory) => Err(Stop::Memory),
    }
}

/// Makes the network that some lines of this format say.
fn network_of_lines(
    alloc: Global,
    format: FileFormat,
    lines: Lines,
) -> Result<FileNetwork, Stop<FileFault>>
    requires { numbers_ascend (numbers_of lines) ≡ true }
    ensures net { IfOk result ((lines_of_format format).IsNet lines) }
    ensures formed { IfOk result (λ f. WellFormed f.net) }
    ensures names { IfOk result (λ f. HasWordNames f.net.nets) }
    ensures settings { IfOk result (HasSettings format) }
    ensures stops { IfErr result (IsLinesCause (lines_of_format format) lines) }
{
    match format {
        FileFormat::BlifMv => blif_mv_network(alloc, lines),
        FileFormat::Blif => blif_network(alloc, lines),
    }
}

/// Reads the network file of this name and format, and makes its network. The file is begun once, and no other is.
#[tactic(auto, using(crate::proofs::Networks::takes_network))]
pub fn take_network<F: Files>(
    alloc: Global,
    format: FileFormat,
    name: &str,
    files: &mut F,
) -> Result<FileNetwork, Stop<FileFault>>
    ensures gives { IfOk result (Gives (format_of format).IsNet
        (network_stage (format_of format) (File name.now)) (F.state files.old) (F.state files.new)) }
    ensures names { IfOk result (λ f. HasWordNames f.net.nets) }
    ensures settings { IfOk result (HasSettings format) }
    ensures stops { IfErr result (IsCause net_line
        (network_stage (format_of format) (File name.now)) (F.state files.old) (F.state files.new)) }
    ensures begun { WasBegun (network_stage (format_of format) (File name.now))
        (F.state files.old) (F.state files.new) }
{
    let lines = match read_lines(alloc, files, name, MAX_NETWORK_BYTES) {
        Ok(lines) => lines,
        Err(LinesStop::Failed) => return Err(Stop::Read),
        Err(LinesStop::Lex(LexFault::Memory)) => return Err(Stop::Memory),
        Err(LinesStop::Lex(fault)) => return Err(Stop::Refused(FileFault::Lex(fault))),
    };
    match network_of_lines(alloc, format, lines) {
        Ok(file) => Ok(file),
        Err(stop) => Err(stop),
    }
}

/// Makes the network that a text of BLIF-MV says, as that of a file is made. No file is begun.
#[tactic(auto, using(crate::proofs::Networks::makes_network))]
pub fn network_of_text(alloc: Global, text: &[u8]) -> Result<FileNetwork, Stop<FileFault>>
    ensures gives { IfOk result (λ f. (files : Stored)
        → Gives blif_mv.IsNet (network_stage blif_mv (Text text.now)) files files f) }
    ensures names { IfOk result (λ f. HasWordNames f.net.nets) }
    ensures stops { IfErr result (λ stop. (files : Stored)
        → IsCause net_line (network_stage blif_mv (Text text.now)) files files stop) }
{
    let lines = match lines_of_text(alloc, text, MAX_NETWORK_BYTES) {
        Ok(lines) => lines,
        Err(LexFault::Memory) => return Err(Stop::Memory),
        Err(fault) => return Err(Stop::Refused(FileFault::Lex(fault))),
    };
    match blif_mv_network(alloc, lines) {
        Ok(file) => Ok(file),
        Err(stop) => Err(stop),
    }
}
