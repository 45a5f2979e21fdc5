ghost use Rattle.std.specs.Prelude.{◌≡◌, IfOk, OnOk};
ghost use Rattle.mv_blif_line.specs.Commands.{command_at};
ghost use Rattle.mv_blif.specs.Meaning.{front_rows};
ghost use Rattle.mv_blif.specs.Steps.{contents_of, with_line};

use mv_base::{Items, Memory};
use mv_blif_line::{Command, add_reset, command_at, is_row, read_latch, read_table, settings};
use mv_design::{FileLatch, FileTable};
use mv_latch::BlifLatch;
use mv_lex::LexLine;
use std::alloc::Global;

/// What lines say besides ports: tables, latches, the reset tables of latches, and what else stands on the latches' lines.
#[derive(Drop)]
pub struct Contents {
    pub tables: Items<FileTable>,
    pub latches: Items<FileLatch>,
    pub resets: Items<FileTable>,
    pub settings: Items<BlifLatch>,
}

/// The rows in front of any other line.
fn front_rows(lines: &[LexLine]) -> &[LexLine]
    ensures { result.now ≡ front_rows lines.now }
{
    for (count, line) in lines.iter().enumerate() {
        if !is_row(command_at(line)) {
            return &lines[..count];
        }
    }
    lines
}

/// Adds what a line says to what those before it say, where these lines stand behind it.
fn add_line(
    alloc: Global,
    contents: &mut Contents,
    line: &LexLine,
    behind: &[LexLine],
) -> Result<(), Memory>
    ensures { OnOk result
        (contents.new ≡ with_line (command_at line.now) line.now behind.now contents.old) }
{
    match command_at(line) {
        Command::Names => {
            let table = read_table(alloc, line, front_rows(behind))?;
            contents.tables.push(table)?;
        }
        Command::Latch => {
            contents.latches.push(read_latch(alloc, line)?)?;
            add_reset(alloc, &mut contents.resets, line)?;
            contents.settings.push(settings(line)?)?;
        }
        _ => {}
    }
    Ok(())
}

/// What these lines say besides ports.
#[tactic(auto, using(crate::proofs::Gathered::reading))]
pub fn read_contents(alloc: Global, lines: &[LexLine]) -> Result<Contents, Memory>
    ensures { IfOk result (λ contents. contents ≡ contents_of lines.now) }
{
    let mut contents = Contents {
        tables: Items::new(alloc),
        latches: Items::new(alloc),
        resets: Items::new(alloc),
        settings: Items::new(alloc),
    };
    for (at, line) in lines.iter().enumerate() {
        add_line(alloc, &mut contents, line, &lines[at + 1..])?;
    }
    Ok(contents)
}
