//! Lines within the model, each kind for itself.
ghost use Rattle.std.specs.Prelude.{◌≡◌, OnOk};
ghost use Rattle.mv_line.specs.Words.{behind_first, first_word};
ghost use Rattle.mv_blif_line.specs.Faults.{Tells};
ghost use Rattle.mv_blif_line.specs.Heads.{ports_faults, columns_faults};
ghost use Rattle.mv_blif_line.specs.Latches.{latch_line_faults};
ghost use Rattle.mv_blif.specs.Grammar.{control_faults_at, controls_faults, row_line_faults, inside_faults};
ghost use Rattle.mv_blif.specs.Steps.{line_step};

use crate::known::Known;
use mv_base::{Name, NameSet};
use mv_blif_line::{
    BlifFault, Command, add_ports, check_control, check_end, check_latch, check_names, command_at,
    count_row, open_table,
};
use mv_fault::ParseFault;
use mv_lex::LexLine;
use mv_line::{behind_first, first_word};
use std::alloc::Global;

/// Tells the control of the latch on this line, if one stands there, that is none of these inputs.
fn check_control_at(command: Command, inputs: &NameSet, line: &LexLine) -> Result<(), BlifFault>
    ensures { Tells result (control_faults_at command inputs.now line.now) }
{
    match command {
        Command::Latch => check_control(inputs, line),
        _ => Ok(()),
    }
}

/// Tells the first control of a latch on these lines that is none of these inputs.
#[tactic(auto, using(mv_fault::proofs::Firsts::firsts))]
pub fn check_controls(inputs: &NameSet, lines: &[LexLine]) -> Result<(), BlifFault>
    ensures { Tells result (controls_faults inputs.now lines.now) }
{
    for line in lines {
        check_control_at(command_at(line), inputs, line)?;
    }
    Ok(())
}

/// A line of inputs.
pub fn read_inputs(known: &mut Known, line: &LexLine) -> Result<(), BlifFault>
    ensures fault { Tells result
        (ports_faults line.now.number known.old.inputs (behind_first line.now)) }
    ensures ok { OnOk result (known.new ≡ line_step Command.Inputs line.now known.old) }
{
    known.table = None;
    add_ports(&mut known.inputs, line.number, behind_first(line))
}

/// A line of outputs.
pub fn read_outputs(known: &mut Known, line: &LexLine) -> Result<(), BlifFault>
    ensures fault { Tells result
        (ports_faults line.now.number known.old.outputs (behind_first line.now)) }
    ensures ok { OnOk result (known.new ≡ line_step Command.Outputs line.now known.old) }
{
    known.table = None;
    add_ports(&mut known.outputs, line.number, behind_first(line))
}

/// A line that begins a table.
pub fn begin_table(alloc: Global, known: &mut Known, line: &LexLine) -> Result<(), BlifFault>
    ensures fault { Tells result
        (columns_faults line.now.number (first_word line.now) (behind_first line.now)) }
    ensures ok { OnOk result (known.new ≡ line_step Command.Names line.now known.old) }
{
    let word = Name::new(alloc, first_word(line))?;
    known.table = Some(open_table(behind_first(line)));
    check_names(line.number, &word, behind_first(line))
}

/// A line of a latch: what it says is read later.
pub fn pass_latch(alloc: Global, known: &mut Known, line: &LexLine) -> Result<(), BlifFault>
    ensures fault { Tells result
        (latch_line_faults line.now.number (first_word line.now) (behind_first line.now)) }
    ensures ok { OnOk result (known.new ≡ line_step Command.Latch line.now known.old) }
{
    let word = Name::new(alloc, first_word(line))?;
    known.table = None;
    check_latch(line.number, &word, behind_first(line))
}

/// A row of the open table.
pub fn read_row(alloc: Global, known: &mut Known, line: &LexLine) -> Result<(), BlifFault>
    ensures fault { Tells result (row_line_faults known.old.table line.now) }
    ensures ok { OnOk result (known.new ≡ line_step Command.Row line.now known.old) }
{
    match &mut known.table {
        Some(table) => count_row(alloc, table, line.number, line.words.as_slice()),
        None => Err(BlifFault::Line(ParseFault::NoTable { line: line.number })),
    }
}

/// The end of the model, behind these lines.
#[tactic(auto, using(mv_fault::proofs::Firsts::firsts))]
pub fn end_model(
    alloc: Global,
    known: &mut Known,
    before: &[LexLine],
    line: &LexLine,
) -> Result<(), BlifFault>
    ensures fault { Tells result (inside_faults Command.End known.old before.now line.now) }
    ensures ok { OnOk result (known.new ≡ line_step Command.End line.now known.old) }
{
    let word = Name::new(alloc, first_word(line))?;
    check_end(line.number, &word, behind_first(line))?;
    check_controls(&known.inputs, before)?;
    known.ended = true;
    known.table = None;
    Ok(())
}
