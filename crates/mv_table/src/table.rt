ghost use Rattle.std.specs.Prelude.{◌≡◌, ◌<◌, ◌^◌, ◌++◌, length, IfOk, OnOk};
ghost use Rattle.std.specs.Option.{option_or};
ghost use Rattle.mv_fault.specs.Tells.{Tells};
ghost use Rattle.mv_table.specs.Columns.{ins_of};
ghost use Rattle.mv_table.specs.Entries.{AreLookedUp};
ghost use Rattle.mv_line.specs.Words.{behind_first};
ghost use Rattle.mv_table.specs.Tables.{is_default_word, begins_default, says_default, row_of_words, entries_faults};
ghost use Rattle.mv_table.specs.Tables.{rows_at, default_at, line_values_faults, table_of, table_faults};

use crate::columns::split_columns;
use crate::entries::{Columns, in_entries, out_entries};
use mv_base::{Items, Name};
use mv_decl::Decls;
use mv_design::{Entries, FileTable, Row, Rows};
use mv_fault::ParseFault;
use mv_lex::LexLine;
use mv_line::behind_first;
use mv_word::is_text;
use std::alloc::Global;

/// Whether the word says that its line is a default.
pub fn is_default_word(word: &[u8]) -> bool
    ensures { result ≡ is_default_word word.now }
{
    is_text(word, b".default") || is_text(word, b".def")
}

/// Whether these are the words of a default.
fn begins_default(words: &[Name]) -> bool
    ensures { result ≡ begins_default words.now }
{
    match words {
        [first, ..] => is_default_word(first.bytes()),
        [] => false,
    }
}

/// Whether the line is the default of a table, and not a row.
#[tactic(auto, unfolding(crate::specs::Tables::says_default))]
fn is_default(line: &LexLine) -> bool
    ensures { result ≡ says_default line.now }
{
    begins_default(line.words.as_slice())
}

/// The row that these words say.
#[tactic(auto, using(mv_fault::proofs::Firsts::firsts))]
fn row(
    alloc: Global,
    number: u32,
    decls: &Decls,
    columns: &Columns,
    words: &[Name],
) -> Result<Row, ParseFault>
    requires few { length columns.now.ins.now < 2 ^ 32 }
    requires placed { AreLookedUp decls.now columns.now }
    ensures fault { Tells result
        (entries_faults number decls.now columns.now.ins.now columns.now.outs.now words.now) }
    ensures ok { IfOk result
        (λ row. row ≡ row_of_words decls.now columns.now.ins.now columns.now.outs.now words.now) }
{
    let sets = in_entries(alloc, number, decls, columns, words)?;
    let (_inputs, behind) = words.split_at(columns.ins.len().min(words.len()));
    let entries = out_entries(alloc, number, decls, columns, behind)?;
    Ok(Row {
        ins: sets,
        outs: entries,
    })
}

/// Reads a row or a default into the rows and the default so far.
#[tactic(auto, using(mv_fault::proofs::Firsts::firsts))]
fn read_line(
    alloc: Global,
    decls: &Decls,
    columns: &Columns,
    line: &LexLine,
    rows: &mut Items<Row>,
    default: &mut Option<Entries>,
) -> Result<(), ParseFault>
    requires few { length columns.now.ins.now < 2 ^ 32 }
    requires placed { AreLookedUp decls.now columns.now }
    ensures fault { Tells result
        (line_values_faults decls.now columns.now.ins.now columns.now.outs.now line.now) }
    ensures rows { OnOk result
        (rows.new ≡ rows.old
        ++ rows_at decls.now columns.now.ins.now columns.now.outs.now line.now) }
    ensures default { OnOk result
        (default.new
        ≡ option_or (default_at decls.now columns.now.ins.now columns.now.outs.now line.now) default.old) }
{
    if is_default(line) {
        let entries = out_entries(alloc, line.number, decls, columns, behind_first(line))?;
        *default = Some(entries);
    } else {
        let words = line.words.as_slice();
        rows.push(row(alloc, line.number, decls, columns, words)?)?;
    }
    Ok(())
}

/// The table of a first line and the lines behind it, all of which are rows or defaults.
#[tactic(auto, using(mv_fault::proofs::Firsts::firsts), unfolding(crate::specs::Tables::table_of, crate::specs::Tables::table_faults))]
pub fn read_table(
    alloc: Global,
    decls: &Decls,
    head: &LexLine,
    lines: &[LexLine],
) -> Result<FileTable, ParseFault>
    requires { length (ins_of (behind_first head.now)) < 2 ^ 32 }
    ensures fault { Tells result (table_faults decls.now head.now lines.now) }
    ensures ok { IfOk result (λ table. table ≡ table_of decls.now head.now lines.now) }
{
    let (ins, outs) = split_columns(behind_first(head));
    let columns = Columns::placed(alloc, decls, ins, outs)?;
    let mut rows = Items::with_room(alloc, lines.len())?;
    let mut default = None;
    for line in lines {
        match read_line(alloc, decls, &columns, line, &mut rows, &mut default) {
            Ok(()) => {}
            Err(fault) => return Err(fault),
        }
    }
    Ok(FileTable {
        line: head.number,
        inputs: Items::of_names(alloc, ins)?,
        outputs: Items::of_names(alloc, outs)?,
        rows: Rows::of(alloc, rows)?,
        default,
    })
}
