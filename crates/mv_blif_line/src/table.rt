ghost use Rattle.std.specs.Prelude.{◌≡◌, ◌<◌, ◌≤◌, ◌∷◌, [], map, IfOk};
ghost use Rattle.mv_base.specs.Set as set;
ghost use Rattle.mv_base.specs.declared.limits.TheConstants.{MAX_VALUES as most_values};
ghost use Rattle.mv_lex.specs.declared.lines.LexLine.{LexLine};
ghost use Rattle.mv_design.specs.declared.table.Entry.{Entry};
ghost use Rattle.mv_blif_line.specs.Tables.{byte_set, row_of, default_value, table_of};

use crate::row::{output_value, plane_of};
use mv_base::{Items, Memory, Name, PackedSet, Value};
use mv_design::{Entries, Entry, FileTable, Row, Rows, Sets};
use mv_lex::LexLine;
use mv_line::behind_first;
use std::alloc::Global;

/// The values that a byte of a plane says of its input.
fn byte_set(alloc: Global, byte: u8) -> Result<PackedSet, Memory>
    ensures { IfOk result (λ set. set ≡ byte_set byte) }
{
    if byte == b'0' {
        PackedSet::one(alloc, Value(0))
    } else if byte == b'1' {
        PackedSet::one(alloc, Value(1))
    } else {
        PackedSet::full(alloc, 2)
    }
}

/// The values that a plane says of the inputs.
fn plane_sets(alloc: Global, plane: &[u8]) -> Result<Sets, Memory>
    ensures { IfOk result (λ sets. sets ≡ map byte_set plane.now) }
{
    let mut sets = Sets::with_room(alloc, plane.len())?;
    for byte in plane {
        sets.push(alloc, byte_set(alloc, *byte)?)?;
    }
    Ok(sets)
}

/// The entries of the one output, which has this value.
fn single_value(alloc: Global, value: u16) -> Result<Entries, Memory>
    requires { value < most_values }
    ensures { IfOk result (λ entries. entries ≡ Entry.Set (set.one value) ∷ []) }
{
    let set = PackedSet::one(alloc, Value(value))?;
    Ok(Entries::one(Entry::Set(set)))
}

/// The row without inputs whose output has this value.
pub fn constant_row(alloc: Global, value: u16) -> Result<Row, Memory>
    requires { value < most_values }
    ensures { IfOk result
        (λ row. row ≡ record { ins = []; outs = Entry.Set (set.one value) ∷ [] }) }
{
    Ok(Row {
        ins: Sets::with_room(alloc, 0)?,
        outs: single_value(alloc, value)?,
    })
}

/// The row of these words.
fn row(alloc: Global, words: &[Name]) -> Result<Row, Memory>
    ensures { IfOk result (λ row. row ≡ row_of words.now) }
{
    Ok(Row {
        ins: plane_sets(alloc, plane_of(words))?,
        outs: single_value(alloc, output_value(words))?,
    })
}

/// The rows of these lines.
fn rows(alloc: Global, lines: &[LexLine]) -> Result<Items<Row>, Memory>
    ensures { IfOk result (λ rows. rows ≡ map (λ (l : LexLine). row_of l.words) lines.now) }
{
    let mut rows = Items::with_room(alloc, lines.len())?;
    for line in lines {
        rows.push(row(alloc, line.words.as_slice())?)?;
    }
    Ok(rows)
}

/// The output where none of these rows matches.
fn default_value(rows: &[LexLine]) -> u16
    ensures value { result ≡ default_value rows.now }
    ensures within { result ≤ 1 }
{
    match rows {
        [first, ..] => 1 - output_value(first.words.as_slice()),
        [] => 0,
    }
}

/// The table of a first line and the rows behind it.
#[tactic(auto, unfolding(crate::specs::Tables::table_of))]
pub fn read_table(alloc: Global, head: &LexLine, lines: &[LexLine]) -> Result<FileTable, Memory>
    ensures { IfOk result (λ table. table ≡ table_of head.now lines.now) }
{
    let words = behind_first(head);
    let (inputs, outputs) = words.split_at(words.len().saturating_sub(1));
    Ok(FileTable {
        line: head.number,
        inputs: Items::of_names(alloc, inputs)?,
        outputs: Items::of_names(alloc, outputs)?,
        rows: Rows::of(alloc, rows(alloc, lines)?)?,
        default: Some(single_value(alloc, default_value(lines))?),
    })
}
