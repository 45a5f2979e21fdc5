ghost use Rattle.std.specs.Prelude.{◌≡◌, All, IfOk, OnOk};
ghost use Rattle.mv_lex.specs.declared.lines.LexLine.{LexLine};
ghost use Rattle.mv_fault.specs.Tells.{Tells};
ghost use Rattle.mv_parse.specs.Commands.{command_at};
ghost use Rattle.mv_parse.specs.Known.{front_rows, file_model};
ghost use Rattle.mv_parse.specs.Grammar.{table_value_faults, tables_faults};
ghost use Rattle.mv_parse.specs.Steps.{with_line, contents_of, HasFewColumns};

use crate::command::{Command, command_at, keeps_table};
use crate::known::{Contents, OpenModel};
use crate::latches::read_latch;
use mv_base::Items;
use mv_decl::Decls;
use mv_design::FileModel;
use mv_fault::ParseFault;
use mv_instances::read_instance;
use mv_lex::LexLine;
use mv_line::behind_first;
use mv_table::read_table;
use std::alloc::Global;

/// The rows and the defaults in front of any other line.
fn front_rows(lines: &[LexLine]) -> &[LexLine]
    ensures { result.now ≡ front_rows lines.now }
{
    for (count, line) in lines.iter().enumerate() {
        if !keeps_table(command_at(line)) {
            return &lines[..count];
        }
    }
    lines
}

/// Adds what a line says to what those before it say, where these lines stand behind it.
fn add_line(
    alloc: Global,
    decls: &Decls,
    contents: &mut Contents,
    line: &LexLine,
    behind: &[LexLine],
) -> Result<(), ParseFault>
    requires { HasFewColumns line.now }
    ensures fault { Tells result
        (table_value_faults (command_at line.now) decls.now line.now behind.now) }
    ensures ok { OnOk result
        (contents.new
        ≡ with_line (command_at line.now) decls.now line.now behind.now contents.old) }
{
    match command_at(line) {
        Command::Table => {
            let table = read_table(alloc, decls, line, front_rows(behind))?;
            contents.tables.push(table)?;
        }
        Command::Latch => contents.latches.push(read_latch(alloc, decls, line)?)?,
        Command::Reset => {
            let table = read_table(alloc, decls, line, front_rows(behind))?;
            contents.resets.push(table)?;
        }
        Command::Instance => {
            let instance = read_instance(alloc, line.number, behind_first(line))?;
            contents.instances.push(instance)?;
        }
        _ => {}
    }
    Ok(())
}

/// The tables, the latches, the reset tables and the instances among the lines of a model behind its first. Each line is let go once what it
/// says has been read.
#[tactic(auto, using(mv_fault::proofs::Firsts::firsts))]
fn contents(alloc: Global, decls: &Decls, lines: Items<LexLine>) -> Result<Contents, ParseFault>
    requires { All (λ (l : LexLine). HasFewColumns l) lines }
    ensures fault { Tells result (tables_faults decls.now lines) }
    ensures ok { IfOk result (λ contents. contents ≡ contents_of decls.now lines) }
{
    let mut contents = Contents {
        tables: Items::new(alloc),
        latches: Items::new(alloc),
        resets: Items::new(alloc),
        instances: Items::new(alloc),
    };
    let mut left = lines;
    for at in 0..left.len() {
        let line = left.replace(at, LexLine::empty(alloc));
        let (_before, behind) = left.as_slice().split_at(at + 1);
        match add_line(alloc, decls, &mut contents, &line, behind) {
            Ok(()) => {}
            Err(fault) => return Err(fault),
        }
    }
    Ok(contents)
}

/// The model that these lines, behind its first, have been read into.
pub fn end_model(
    alloc: Global,
    model: OpenModel,
    lines: Items<LexLine>,
) -> Result<FileModel, ParseFault>
    requires { All (λ (l : LexLine). HasFewColumns l) lines }
    ensures fault { Tells result (tables_faults model.decls lines) }
    ensures ok { IfOk result (λ ended. ended ≡ file_model model lines) }
{
    let contents = contents(alloc, &model.decls, lines)?;
    Ok(FileModel {
        inputs: Items::of_names(alloc, model.inputs.as_slice())?,
        outputs: Items::of_names(alloc, model.outputs.as_slice())?,
        name: model.name,
        decls: model.decls.finish(),
        tables: contents.tables,
        latches: contents.latches,
        resets: contents.resets,
        instances: contents.instances,
    })
}
