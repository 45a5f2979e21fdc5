ghost use Rattle.std.specs.Prelude.{◌≡◌, ◌+◌, [], length};
ghost use Rattle.std.specs.List.{position_or_len};
ghost use Rattle.mv_table.specs.Columns.{is_arrow, arrow_at, ins_of, outs_of};
ghost use Rattle.mv_table.specs.Columns.{column_faults, names_faults, outputs_faults, columns_faults, output_faults, reset_faults};
ghost use Rattle.mv_fault.specs.Tells.{Tells};

use mv_base::{MAX_COLUMNS, Name, NameSet};
use mv_fault::{ParseFault, Which};
use mv_word::{is_net_name, is_text};
use std::alloc::Global;

/// The place of the first `->`, or the length where there is none.
fn arrow_at(words: &[Name]) -> usize
    ensures { result ≡ arrow_at words.now }
{
    for (at, word) in words.iter().enumerate() {
        if is_text(word.bytes(), b"->") {
            return at;
        }
    }
    words.len()
}

/// The input columns and the output columns among the words of a table's first line: the names before the first `->` and
/// behind it, or all but the last and the last.
#[tactic(auto, unfolding(crate::specs::Columns::ins_of, crate::specs::Columns::outs_of))]
pub fn split_columns(words: &[Name]) -> (&[Name], &[Name])
    ensures ins { result.0.now ≡ ins_of words.now }
    ensures outs { result.1.now ≡ outs_of words.now }
{
    let arrow = arrow_at(words);
    if arrow < words.len() {
        return (&words[..arrow], &words[arrow + 1..]);
    }
    let last = words.len().saturating_sub(1);
    (&words[..last], &words[last..])
}

/// Refuses a column of this name behind so many columns: one too many, or one whose name isn't lawful.
fn check_column(number: u32, before: u128, name: &Name) -> Result<(), ParseFault>
    ensures { Tells result (column_faults number before name.now) }
{
    if before >= MAX_COLUMNS as u128 {
        return Err(ParseFault::Limit {
            line: number,
            which: Which::Columns,
            number: MAX_COLUMNS + 1,
        });
    }
    if !is_net_name(name.bytes()) {
        return Err(ParseFault::BadName {
            line: number,
            name: name.copy()?,
        });
    }
    Ok(())
}

/// Tells the first fault of column names behind so many columns, where a name may stand twice.
#[tactic(auto, using(mv_fault::proofs::Firsts::firsts))]
pub fn check_names(number: u32, before: usize, names: &[Name]) -> Result<(), ParseFault>
    ensures { Tells result (names_faults number before names.now) }
{
    for (at, name) in names.iter().enumerate() {
        check_column(number, before as u128 + at as u128, name)?;
    }
    Ok(())
}

/// Tells the first fault of several outputs behind so many columns.
#[tactic(auto, using(mv_fault::proofs::Firsts::firsts))]
fn check_several(alloc: Global, number: u32, before: usize, outs: &[Name]) -> Result<(), ParseFault>
    ensures { Tells result (outputs_faults number before [] outs.now) }
{
    let mut seen = NameSet::new(alloc);
    for (at, name) in outs.iter().enumerate() {
        check_column(number, before as u128 + at as u128, name)?;
        if !seen.add(name.copy()?)? {
            return Err(ParseFault::Repeated {
                line: number,
                name: name.copy()?,
            });
        }
    }
    Ok(())
}

/// Tells the first fault of the outputs of a table behind so many columns. A single output takes no memory.
#[tactic(auto, using(crate::proofs::Outputs::single_output))]
fn check_outputs(alloc: Global, number: u32, before: usize, outs: &[Name]) -> Result<(), ParseFault>
    ensures { Tells result (outputs_faults number before [] outs.now) }
{
    match outs {
        [] => Ok(()),
        [_output] => check_names(number, before, outs),
        _ => check_several(alloc, number, before, outs),
    }
}

/// Tells the first fault of the words behind the command `word` of a table's first line.
#[tactic(auto, using(mv_fault::proofs::Firsts::firsts), unfolding(crate::specs::Columns::columns_faults))]
pub fn check_columns(
    alloc: Global,
    number: u32,
    word: &[u8],
    words: &[Name],
) -> Result<(), ParseFault>
    ensures { Tells result (columns_faults number word.now words.now) }
{
    let (ins, outs) = split_columns(words);
    check_names(number, 0, ins)?;
    check_outputs(alloc, number, ins.len(), outs)?;
    if outs.is_empty() {
        return Err(ParseFault::Missing {
            line: number,
            word: Name::new(alloc, word)?,
        });
    }
    Ok(())
}

/// Tells the first fault of the outputs of a reset table, behind so many columns.
#[tactic(auto, using(mv_fault::proofs::Firsts::firsts))]
fn check_output(number: u32, word: &Name, before: usize, outs: &[Name]) -> Result<(), ParseFault>
    ensures { Tells result (output_faults number word.now before outs.now) }
{
    match outs {
        [] => Err(ParseFault::Missing {
            line: number,
            word: word.copy()?,
        }),
        [_output] => check_names(number, before, outs),
        [_output, ..] => {
            check_names(number, before, &outs[..1])?;
            Err(ParseFault::Extra {
                line: number,
                word: word.copy()?,
            })
        }
    }
}

/// Tells the first fault of the words behind the command `word` of a reset table.
#[tactic(auto, using(mv_fault::proofs::Firsts::firsts), unfolding(crate::specs::Columns::reset_faults))]
pub fn check_reset(number: u32, word: &Name, words: &[Name]) -> Result<(), ParseFault>
    ensures { Tells result (reset_faults number word.now words.now) }
{
    let (ins, outs) = split_columns(words);
    check_names(number, 0, ins)?;
    check_output(number, word, ins.len(), outs)
}
