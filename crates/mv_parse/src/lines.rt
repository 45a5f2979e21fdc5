ghost use Rattle.std.specs.Prelude.{◌≡◌, ◌≤◌, ◌+◌, IfOk, OnOk};
ghost use Rattle.mv_base.specs.declared.limits.TheConstants.{MAX_COLUMNS as most_columns};
ghost use Rattle.mv_fault.specs.Tells.{Tells};
ghost use Rattle.mv_decl.specs.Line.{decl_faults};
ghost use Rattle.mv_table.specs.Columns.{columns_faults, reset_faults};
ghost use Rattle.mv_instances.specs.Line.{instance_faults};
ghost use Rattle.mv_line.specs.Ports.{port_faults};
ghost use Rattle.mv_line.specs.Words.{first_of};
ghost use Rattle.mv_parse.specs.Grammar.{model_name_faults, model_faults, latch_faults, row_faults, default_faults};
ghost use Rattle.mv_parse.specs.Steps.{with_inputs, with_outputs, with_declared, with_instance, with_no_table, with_open_table, default_seen, row_seen};

use crate::known::{OpenModel, OpenTable};
use crate::latches::check_latch;
use mv_base::{MAX_MODELS, MAX_TABLE_LINES, Name, NameSet};
use mv_decl::declare;
use mv_fault::{ParseFault, Which};
use mv_instances::add_instance;
use mv_line::add_ports;
use mv_table::{check_columns, check_reset, split_columns};
use mv_word::is_model_name;
use std::alloc::Global;

/// The name behind `.model`, if it names none of these models.
#[tactic(auto, using(mv_fault::proofs::Firsts::firsts))]
fn new_name(number: u32, word: &Name, names: &NameSet, words: &[Name]) -> Result<Name, ParseFault>
    ensures fault { Tells result (model_name_faults number word.now names.now words.now) }
    ensures ok { IfOk result (λ name. name ≡ first_of words.now) }
{
    match words {
        [] => Err(ParseFault::Missing {
            line: number,
            word: word.copy()?,
        }),
        [name, ..] if !is_model_name(name.bytes()) => Err(ParseFault::BadName {
            line: number,
            name: name.copy()?,
        }),
        [name, ..] if names.contains(name) => Err(ParseFault::ModelTwice {
            line: number,
            name: name.copy()?,
        }),
        [name] => Ok(name.copy()?),
        _ => Err(ParseFault::Extra {
            line: number,
            word: word.copy()?,
        }),
    }
}

/// The name behind `.model`, if there may be one more model than these.
#[tactic(auto, using(mv_fault::proofs::Firsts::firsts), unfolding(crate::specs::Grammar::model_faults))]
pub fn model_name(
    number: u32,
    word: &Name,
    names: &NameSet,
    words: &[Name],
) -> Result<Name, ParseFault>
    ensures fault { Tells result (model_faults number word.now names.now words.now) }
    ensures ok { IfOk result (λ name. name ≡ first_of words.now) }
{
    if names.len() as u64 >= MAX_MODELS {
        return Err(ParseFault::Limit {
            line: number,
            which: Which::Models,
            number: MAX_MODELS + 1,
        });
    }
    new_name(number, word, names, words)
}

/// Reads the names behind `.inputs`.
pub fn read_inputs(model: &mut OpenModel, number: u32, words: &[Name]) -> Result<(), ParseFault>
    ensures fault { Tells result (port_faults number model.old.inputs words.now) }
    ensures ok { OnOk result (model.new ≡ with_inputs words.now model.old) }
{
    model.table = None;
    add_ports(&mut model.inputs, number, words)
}

/// Reads the names behind `.outputs`.
pub fn read_outputs(model: &mut OpenModel, number: u32, words: &[Name]) -> Result<(), ParseFault>
    ensures fault { Tells result (port_faults number model.old.outputs words.now) }
    ensures ok { OnOk result (model.new ≡ with_outputs words.now model.old) }
{
    model.table = None;
    add_ports(&mut model.outputs, number, words)
}

/// Reads the words behind `.mv`.
pub fn read_decls(
    alloc: Global,
    model: &mut OpenModel,
    number: u32,
    word: &Name,
    words: &[Name],
) -> Result<(), ParseFault>
    ensures fault { Tells result (decl_faults number word.now model.old.decls words.now) }
    ensures ok { OnOk result (model.new ≡ with_declared words.now model.old) }
{
    model.table = None;
    declare(alloc, &mut model.decls, number, word, words)
}

/// Opens the table, or the reset table, of a first line with these words.
fn open_table(model: &mut OpenModel, words: &[Name])
    ensures { model.new ≡ with_open_table words.now model.old }
{
    let (ins, outs) = split_columns(words);
    model.table = Some(OpenTable {
        ins: ins.len(),
        outs: outs.len(),
        rows: 0,
        has_default: false,
    });
}

/// Reads the words behind `.table`.
pub fn begin_table(
    alloc: Global,
    model: &mut OpenModel,
    number: u32,
    word: &[u8],
    words: &[Name],
) -> Result<(), ParseFault>
    ensures fault { Tells result (columns_faults number word.now words.now) }
    ensures ok { OnOk result (model.new ≡ with_open_table words.now model.old) }
{
    check_columns(alloc, number, word, words)?;
    open_table(model, words);
    Ok(())
}

/// Reads the words behind `.reset`.
pub fn begin_reset(
    model: &mut OpenModel,
    number: u32,
    word: &Name,
    words: &[Name],
) -> Result<(), ParseFault>
    ensures fault { Tells result (reset_faults number word.now words.now) }
    ensures ok { OnOk result (model.new ≡ with_open_table words.now model.old) }
{
    check_reset(number, word, words)?;
    open_table(model, words);
    Ok(())
}

/// Reads the words behind `.latch`: what they say is read at the end of the model.
pub fn pass_latch(
    model: &mut OpenModel,
    number: u32,
    word: &Name,
    words: &[Name],
) -> Result<(), ParseFault>
    ensures fault { Tells result (latch_faults number word.now words.now) }
    ensures ok { OnOk result (model.new ≡ with_no_table model.old) }
{
    model.table = None;
    check_latch(number, word, words)
}

/// Reads the words behind `.subckt`: the instance's name alone, for what they say is read at the end of the model.
pub fn pass_instance(
    alloc: Global,
    model: &mut OpenModel,
    number: u32,
    word: &Name,
    words: &[Name],
) -> Result<(), ParseFault>
    ensures fault { Tells result (instance_faults number word.now model.old.instances words.now) }
    ensures ok { OnOk result (model.new ≡ with_instance words.now model.old) }
{
    model.table = None;
    add_instance(alloc, &mut model.instances, number, word, words)
}

/// Counts a row of the open table.
#[tactic(auto, using(mv_fault::proofs::Firsts::firsts), unfolding(crate::specs::Grammar::row_faults))]
pub fn count_row(table: &mut OpenTable, number: u32, words: &[Name]) -> Result<(), ParseFault>
    requires { table.old.ins + table.old.outs ≤ most_columns }
    ensures fault { Tells result (row_faults number table.old words.now) }
    ensures ok { OnOk result (table.new ≡ row_seen table.old) }
{
    if table.rows >= MAX_TABLE_LINES {
        return Err(ParseFault::Limit {
            line: number,
            which: Which::TableLines,
            number: MAX_TABLE_LINES + 1,
        });
    }
    let wanted = table.ins + table.outs;
    if words.len() != wanted {
        return Err(ParseFault::Columns {
            line: number,
            wanted: wanted as u64,
            got: words.len() as u64,
        });
    }
    table.rows += 1;
    Ok(())
}

/// Marks that the default of the open table has stood.
#[tactic(auto, using(mv_fault::proofs::Firsts::firsts), unfolding(crate::specs::Grammar::default_faults))]
pub fn count_default(
    alloc: Global,
    table: &mut OpenTable,
    number: u32,
    word: &[u8],
    words: &[Name],
) -> Result<(), ParseFault>
    ensures fault { Tells result (default_faults number word.now table.old words.now) }
    ensures ok { OnOk result (table.new ≡ default_seen table.old) }
{
    if table.has_default {
        return Err(ParseFault::DefaultTwice { line: number });
    }
    if words.len() < table.outs {
        return Err(ParseFault::Missing {
            line: number,
            word: Name::new(alloc, word)?,
        });
    }
    if words.len() > table.outs {
        return Err(ParseFault::Extra {
            line: number,
            word: Name::new(alloc, word)?,
        });
    }
    table.has_default = true;
    Ok(())
}
