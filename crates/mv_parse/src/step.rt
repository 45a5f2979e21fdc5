ghost use Rattle.std.specs.Prelude.{◌≡◌, ◌≤◌, ◌+◌, List, All, Some, true, false, IfOk, OnOk};
ghost use Rattle.mv_base.specs.declared.limits.TheConstants.{MAX_COLUMNS as most_columns};
ghost use Rattle.mv_lex.specs.declared.lines.LexLine.{LexLine};
ghost use Rattle.mv_fault.specs.Tells.{Tells};
ghost use Rattle.mv_parse.specs.declared.known.OpenTable.{OpenTable};
ghost use Rattle.mv_parse.specs.declared.known.OpenModel.{OpenModel};
ghost use Rattle.mv_line.specs.Words.{behind_first, first_word};
ghost use Rattle.mv_parse.specs.Commands.{is_model, is_end, is_root};
ghost use Rattle.mv_parse.specs.Grammar.{root_faults, outside_faults, inside_faults, end_faults, body_faults, begin_faults, line_faults};
ghost use Rattle.mv_parse.specs.Known.{file_model};
ghost use Rattle.mv_parse.specs.Steps.{inside_step, body_step, with_model, with_root, line_step, HasFewColumns, IsSmall, CanEnd, HasRoom};

use crate::command::{Command, is_end, is_model, is_root};
use crate::known::{Known, OpenModel};
use crate::lines::{
    begin_reset, begin_table, count_default, count_row, model_name, pass_instance, pass_latch,
    read_decls, read_inputs, read_outputs,
};
use crate::roots::read_root;
use crate::tables::end_model;
use mv_base::{Items, Name, NameSet};
use mv_decl::Decls;
use mv_design::FileModel;
use mv_fault::ParseFault;
use mv_lex::LexLine;
use mv_line::{behind_first, first_word};
use std::alloc::Global;
use std::mem;

/// Begins the model of this line, where none is open.
#[tactic(auto, using(mv_fault::proofs::Firsts::firsts))]
fn begin_model(alloc: Global, known: &mut Known, line: &LexLine) -> Result<(), ParseFault>
    ensures fault { Tells result (begin_faults known.old line.now) }
    ensures ok { OnOk result (known.new ≡ with_model line.now known.old) }
{
    if let Some(model) = &known.inside {
        return Err(ParseFault::NoEnd { line: model.line });
    }
    let word = Name::new(alloc, first_word(line))?;
    let name = model_name(line.number, &word, &known.names, behind_first(line))?;
    known.inside = Some(OpenModel {
        line: line.number,
        name,
        inputs: NameSet::new(alloc),
        outputs: NameSet::new(alloc),
        decls: Decls::new(alloc)?,
        instances: NameSet::new(alloc),
        table: None,
    });
    Ok(())
}

/// Keeps the root that this line names, where no line before names one.
fn name_root(alloc: Global, known: &mut Known, line: &LexLine) -> Result<(), ParseFault>
    ensures fault { Tells result
        (root_faults line.now.number (first_word line.now) known.old.root (behind_first line.now)) }
    ensures ok { OnOk result (known.new ≡ with_root line.now known.old) }
{
    let word = Name::new(alloc, first_word(line))?;
    let root = read_root(line.number, &word, &known.root, behind_first(line))?;
    known.root = Some(root);
    if let Some(model) = &mut known.inside {
        model.table = None;
    }
    Ok(())
}

/// Refuses a line outside a model that may stand in one alone.
fn outside_line(alloc: Global, command: Command, line: &LexLine) -> Result<(), ParseFault>
    ensures { Tells result (outside_faults command line.now) }
{
    match command {
        Command::Unknown => Err(ParseFault::UnknownCommand {
            line: line.number,
            word: Name::new(alloc, first_word(line))?,
        }),
        _ => Err(ParseFault::OutsideModel { line: line.number }),
    }
}

/// The end of a model, of which these are the lines behind its first.
#[tactic(auto, using(mv_fault::proofs::Firsts::firsts), unfolding(crate::specs::Grammar::end_faults))]
fn end_line(
    alloc: Global,
    model: OpenModel,
    lines: Items<LexLine>,
    line: &LexLine,
) -> Result<FileModel, ParseFault>
    requires { All (λ (l : LexLine). HasFewColumns l) lines }
    ensures fault { Tells result
        (end_faults line.now.number (first_word line.now)
        (behind_first line.now) model.decls lines) }
    ensures ok { IfOk result (λ ended. ended ≡ file_model model lines) }
{
    if !behind_first(line).is_empty() {
        return Err(ParseFault::Extra {
            line: line.number,
            word: Name::new(alloc, first_word(line))?,
        });
    }
    end_model(alloc, model, lines)
}

/// A row of the open model.
fn row_line(model: &mut OpenModel, line: &LexLine) -> Result<(), ParseFault>
    requires { (t : OpenTable) → model.old.table ≡ Some t → t.ins + t.outs ≤ most_columns }
    ensures fault { Tells result (inside_faults Command.Row model.old line.now) }
    ensures ok { OnOk result (model.new ≡ inside_step Command.Row line.now model.old) }
{
    match &mut model.table {
        Some(table) => count_row(table, line.number, line.words.as_slice()),
        None => Err(ParseFault::NoTable { line: line.number }),
    }
}

/// A default of the open model.
fn default_line(alloc: Global, model: &mut OpenModel, line: &LexLine) -> Result<(), ParseFault>
    ensures fault { Tells result (inside_faults Command.Default model.old line.now) }
    ensures ok { OnOk result (model.new ≡ inside_step Command.Default line.now model.old) }
{
    let word = first_word(line);
    match &mut model.table {
        Some(table) => count_default(alloc, table, line.number, word, behind_first(line)),
        None => Err(ParseFault::NoTable { line: line.number }),
    }
}

/// A line within a model that goes on.
fn inside_line(
    alloc: Global,
    model: &mut OpenModel,
    command: Command,
    line: &LexLine,
) -> Result<(), ParseFault>
    requires small { (t : OpenTable) → model.old.table ≡ Some t → t.ins + t.outs ≤ most_columns }
    requires no_model { is_model command ≡ false }
    requires no_root { is_root command ≡ false }
    requires no_end { is_end command ≡ false }
    ensures fault { Tells result (inside_faults command model.old line.now) }
    ensures ok { OnOk result (model.new ≡ inside_step command line.now model.old) }
{
    let number = line.number;
    let words = behind_first(line);
    match command {
        Command::Inputs => read_inputs(model, number, words),
        Command::Outputs => read_outputs(model, number, words),
        Command::Mv => {
            let word = Name::new(alloc, first_word(line))?;
            read_decls(alloc, model, number, &word, words)
        }
        Command::Table => begin_table(alloc, model, number, first_word(line), words),
        Command::Latch => {
            let word = Name::new(alloc, first_word(line))?;
            pass_latch(model, number, &word, words)
        }
        Command::Reset => {
            let word = Name::new(alloc, first_word(line))?;
            begin_reset(model, number, &word, words)
        }
        Command::Row => row_line(model, line),
        Command::Default => default_line(alloc, model, line),
        Command::Instance => {
            let word = Name::new(alloc, first_word(line))?;
            pass_instance(alloc, model, number, &word, words)
        }
        Command::Model | Command::Root | Command::End => unreachable!(),
        Command::Unknown => Err(ParseFault::UnknownCommand {
            line: number,
            word: Name::new(alloc, first_word(line))?,
        }),
    }
}

/// A line that ends the open model, if there is one.
#[tactic(auto, using(mv_fault::proofs::Firsts::firsts))]
fn end_open(
    alloc: Global,
    known: &mut Known,
    body: &mut Items<LexLine>,
    line: &LexLine,
) -> Result<(), ParseFault>
    requires narrow { All (λ (l : LexLine). HasFewColumns l) body.old }
    requires opened { (m : OpenModel) → known.old.inside ≡ Some m → CanEnd known.old.names m }
    ensures fault { Tells result (body_faults Command.End known.old.inside body.old line.now) }
    ensures ok { OnOk result
        (known.new ≡ body_step Command.End known.old known.old.inside body.old line.now) }
{
    match known.inside.take() {
        None => outside_line(alloc, Command::End, line),
        Some(model) => {
            let lines = mem::replace(body, Items::new(alloc));
            let ended = end_line(alloc, model, lines, line)?;
            let _new = known.names.add(ended.name.copy()?)?;
            known.models.push(ended)?;
            Ok(())
        }
    }
}

/// A line that may stand in a model alone, and doesn't end it.
fn body_line(
    alloc: Global,
    known: &mut Known,
    command: Command,
    line: &LexLine,
) -> Result<(), ParseFault>
    requires small { (m : OpenModel) (t : OpenTable) → known.old.inside ≡ Some m → m.table ≡ Some t
        → t.ins + t.outs ≤ most_columns }
    requires no_model { is_model command ≡ false }
    requires no_root { is_root command ≡ false }
    requires no_end { is_end command ≡ false }
    ensures fault { (body : List LexLine)
        → Tells result (body_faults command known.old.inside body line.now) }
    ensures ok { (body : List LexLine)
        → OnOk result (known.new ≡ body_step command known.old known.old.inside body line.now) }
{
    match &mut known.inside {
        None => outside_line(alloc, command, line),
        Some(model) => inside_line(alloc, model, command, line),
    }
}

/// Reads a line: what is known behind it, or its first fault. `body` are the lines of the open model behind its
/// first, which only the line that ends it takes.
#[tactic(auto, unfolding(crate::specs::Grammar::line_faults, crate::specs::Steps::line_step))]
pub fn take_line(
    alloc: Global,
    known: &mut Known,
    command: Command,
    body: &mut Items<LexLine>,
    line: &LexLine,
) -> Result<(), ParseFault>
    requires small { IsSmall known.old }
    requires room { HasRoom known.old }
    requires narrow { All (λ (l : LexLine). HasFewColumns l) body.old }
    ensures fault { Tells result (line_faults command known.old body.old line.now) }
    ensures ok { OnOk result (known.new ≡ line_step command known.old body.old line.now) }
    ensures same { is_end command ≡ false → body.new ≡ body.old }
{
    if is_model(command) {
        begin_model(alloc, known, line)
    } else if is_root(command) {
        name_root(alloc, known, line)
    } else if is_end(command) {
        end_open(alloc, known, body, line)
    } else {
        body_line(alloc, known, command, line)
    }
}
