ghost use Rattle.std.specs.Prelude.{◌≡◌, false, OnOk};
ghost use Rattle.mv_line.specs.Words.{behind_first, first_word};
ghost use Rattle.mv_blif_line.specs.Commands.{is_model};
ghost use Rattle.mv_blif_line.specs.Faults.{Tells};
ghost use Rattle.mv_blif_line.specs.Heads.{model_faults};
ghost use Rattle.mv_blif.specs.Grammar.{outside_faults, inside_faults, is_open, line_faults};
ghost use Rattle.mv_blif.specs.Steps.{line_step};

use crate::inside::{begin_table, end_model, pass_latch, read_inputs, read_outputs, read_row};
use crate::known::Known;
use mv_base::Name;
use mv_blif_line::{BlifFault, Command, check_model, is_model};
use mv_fault::ParseFault;
use mv_lex::LexLine;
use mv_line::{behind_first, first_word};
use std::alloc::Global;

/// Refuses a line outside the model that may stand in it alone.
fn outside_line(alloc: Global, command: Command, line: &LexLine) -> Result<(), BlifFault>
    ensures { Tells result (outside_faults command line.now) }
{
    match command {
        Command::Unknown => Err(BlifFault::Line(ParseFault::UnknownCommand {
            line: line.number,
            word: Name::new(alloc, first_word(line))?,
        })),
        _ => Err(BlifFault::Line(ParseFault::OutsideModel { line: line.number })),
    }
}

/// A line within the model, behind these lines.
fn inside_line(
    alloc: Global,
    known: &mut Known,
    command: Command,
    before: &[LexLine],
    line: &LexLine,
) -> Result<(), BlifFault>
    requires { is_model command ≡ false }
    ensures fault { Tells result (inside_faults command known.old before.now line.now) }
    ensures ok { OnOk result (known.new ≡ line_step command line.now known.old) }
{
    match command {
        Command::Inputs => read_inputs(known, line),
        Command::Outputs => read_outputs(known, line),
        Command::Names => begin_table(alloc, known, line),
        Command::Latch => pass_latch(alloc, known, line),
        Command::Row => read_row(alloc, known, line),
        Command::End => end_model(alloc, known, before, line),
        Command::Unknown => Err(BlifFault::Line(ParseFault::UnknownCommand {
            line: line.number,
            word: Name::new(alloc, first_word(line))?,
        })),
        Command::Model => unreachable!(),
    }
}

/// The line that begins the model.
#[tactic(auto, using(mv_fault::proofs::Firsts::firsts))]
fn begin_model(alloc: Global, known: &mut Known, line: &LexLine) -> Result<(), BlifFault>
    ensures fault { Tells result
        (model_faults line.now.number (first_word line.now) known.old.begun
        (behind_first line.now)) }
    ensures ok { OnOk result (known.new ≡ line_step Command.Model line.now known.old) }
{
    let word = Name::new(alloc, first_word(line))?;
    check_model(line.number, &word, known.begun, behind_first(line))?;
    known.begun = true;
    known.table = None;
    Ok(())
}

/// Whether the model is open.
fn is_open(known: &Known) -> bool
    ensures { result ≡ is_open known.now }
{
    known.begun && !known.ended
}

/// Reads a line that is this command, behind these lines: what is known behind it, or its first fault.
#[tactic(auto, unfolding(crate::specs::Grammar::line_faults))]
pub fn take_line(
    alloc: Global,
    known: &mut Known,
    command: Command,
    before: &[LexLine],
    line: &LexLine,
) -> Result<(), BlifFault>
    ensures fault { Tells result (line_faults command known.old before.now line.now) }
    ensures ok { OnOk result (known.new ≡ line_step command line.now known.old) }
{
    if is_model(command) {
        begin_model(alloc, known, line)
    } else if is_open(known) {
        inside_line(alloc, known, command, before, line)
    } else {
        outside_line(alloc, command, line)
    }
}
