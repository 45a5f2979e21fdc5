ghost use Rattle.std.specs.Prelude.{◌≡◌, ◌<◌, ◌≤◌, OnOk};
ghost use Rattle.std.specs.List.{list_all};
ghost use Rattle.mv_base.specs.declared.limits.TheConstants.{MAX_TABLE_LINES as most_lines};
ghost use Rattle.mv_blif_line.specs.Faults.{Tells};
ghost use Rattle.mv_blif_line.specs.Rows.{words_wanted, is_plane_byte, is_one, is_output, plane_of, output_of, value_of};
ghost use Rattle.mv_blif_line.specs.Rows.{plane_faults, output_faults, count_faults, row_faults, new_table, row_seen};

use crate::fault::BlifFault;
use mv_base::{MAX_TABLE_LINES, Name};
use mv_fault::{ParseFault, Which};
use mv_word::is_text;
use std::alloc::Global;

/// What the lines of the open table say so far: how many inputs it has, how many rows, and the value of the output on the
/// first of them.
#[derive(Clone, Copy, Debug, PartialEq, Eq)]
pub struct OpenTable {
    pub ins: usize,
    pub rows: u64,
    pub first: Option<u16>,
}

/// The table that a first line with these words behind its command begins.
pub fn open_table(words: &[Name]) -> OpenTable
    ensures { result ≡ new_table words.now }
{
    OpenTable {
        ins: words.len().saturating_sub(1),
        rows: 0,
        first: None,
    }
}

/// How many words a row has.
fn words_wanted(ins: usize) -> usize
    ensures { result ≡ words_wanted ins }
{
    if ins == 0 { 1 } else { 2 }
}

/// Whether each byte of the word says what its input may be.
fn is_plane(word: &[u8]) -> bool
    ensures { result ≡ list_all is_plane_byte word.now }
{
    word.iter()
        .all(|byte| *byte == b'0' || *byte == b'1' || *byte == b'-')
}

/// Whether the output is 1.
fn is_one(word: &[u8]) -> bool
    ensures { result ≡ is_one word.now }
{
    is_text(word, b"1")
}

/// Whether the word is an output.
fn is_output(word: &[u8]) -> bool
    ensures { result ≡ is_output word.now }
{
    is_text(word, b"0") || is_one(word)
}

/// The plane of a row, or no bytes where its output stands alone.
pub fn plane_of(words: &[Name]) -> &[u8]
    ensures { result.now ≡ plane_of words.now }
{
    match words {
        [] => b"",
        [_output] => b"",
        [plane, _output, ..] => plane.bytes(),
    }
}

/// The output of a row.
fn output_of(words: &[Name]) -> &[u8]
    ensures { result.now ≡ output_of words.now }
{
    match words {
        [] => b"",
        [output] => output.bytes(),
        [_plane, output, ..] => output.bytes(),
    }
}

/// The value of the output of a row.
pub fn output_value(words: &[Name]) -> u16
    ensures value { result ≡ value_of (output_of words.now) }
    ensures within { result ≤ 1 }
{
    if is_one(output_of(words)) { 1 } else { 0 }
}

/// Tells the first fault of a plane.
#[tactic(auto, using(mv_fault::proofs::Firsts::firsts))]
fn check_plane(alloc: Global, number: u32, ins: usize, plane: &[u8]) -> Result<(), BlifFault>
    ensures { Tells result (plane_faults number ins plane.now) }
{
    if plane.len() != ins {
        return Err(BlifFault::Line(ParseFault::Columns {
            line: number,
            wanted: ins as u64,
            got: plane.len() as u64,
        }));
    }
    if !is_plane(plane) {
        return Err(BlifFault::Line(ParseFault::UnknownValue {
            line: number,
            word: Name::new(alloc, plane)?,
        }));
    }
    Ok(())
}

/// Tells the first fault of an output behind rows of which the first has this one.
#[tactic(auto, using(mv_fault::proofs::Firsts::firsts), unfolding(crate::specs::Rows::output_faults))]
fn check_output(
    alloc: Global,
    number: u32,
    first: Option<u16>,
    words: &[Name],
) -> Result<(), BlifFault>
    ensures { Tells result (output_faults number first (output_of words.now)) }
{
    let output = output_of(words);
    if !is_output(output) {
        return Err(BlifFault::Line(ParseFault::UnknownValue {
            line: number,
            word: Name::new(alloc, output)?,
        }));
    }
    match first {
        Some(value) => {
            if output_value(words) != value {
                return Err(BlifFault::MixedRows { line: number });
            }
            Ok(())
        }
        None => Ok(()),
    }
}

/// Tells one row too many, or too few or too many words.
#[tactic(auto, using(mv_fault::proofs::Firsts::firsts))]
fn check_count(table: &OpenTable, number: u32, words: &[Name]) -> Result<(), BlifFault>
    ensures fault { Tells result (count_faults number table.now words.now) }
    ensures room { OnOk result (table.now.rows < most_lines) }
{
    if table.rows >= MAX_TABLE_LINES {
        return Err(BlifFault::Line(ParseFault::Limit {
            line: number,
            which: Which::TableLines,
            number: MAX_TABLE_LINES + 1,
        }));
    }
    let wanted = words_wanted(table.ins);
    if words.len() != wanted {
        return Err(BlifFault::Line(ParseFault::Columns {
            line: number,
            wanted: wanted as u64,
            got: words.len() as u64,
        }));
    }
    Ok(())
}

/// Tells the first fault of a row of the open table.
#[tactic(auto, using(mv_fault::proofs::Firsts::firsts), unfolding(crate::specs::Rows::row_faults))]
fn check_row(alloc: Global, table: &OpenTable, number: u32, words: &[Name]) -> Result<(), BlifFault>
    ensures fault { Tells result (row_faults number table.now words.now) }
    ensures room { OnOk result (table.now.rows < most_lines) }
{
    check_count(table, number, words)?;
    check_plane(alloc, number, table.ins, plane_of(words))?;
    check_output(alloc, number, table.first, words)
}

/// Counts a row of the open table.
pub fn count_row(
    alloc: Global,
    table: &mut OpenTable,
    number: u32,
    words: &[Name],
) -> Result<(), BlifFault>
    ensures fault { Tells result (row_faults number table.old words.now) }
    ensures ok { OnOk result (table.new ≡ row_seen words.now table.old) }
{
    check_row(alloc, table, number, words)?;
    table.rows += 1;
    table.first = Some(table.first.unwrap_or(output_value(words)));
    Ok(())
}
