//! A model with a net for each reset value.
ghost use Rattle.std.specs.Prelude.{◌≡◌, ◌++◌, nat_lt, length, map, IfOk, OnOk, All};
ghost use Rattle.mv_decl.specs.Nets.{HasValues};
ghost use Rattle.mv_design.specs.ByLine.{before_line, from_line, by_line};
ghost use Rattle.mv_resets.specs.Resets.{reset_decl, reset_name, reset_table, with_reset_nets};

use mv_base::{Items, Memory, Name};
use mv_decl::Declared;
use mv_design::{Decl, FileModel, FileTable};
use std::alloc::Global;
use std::collections::VecDeque;

/// The model with its reset tables as tables of reset nets.
#[tactic(auto, using(crate::proofs::Same::without_resets), unfolding(crate::specs::Resets::with_reset_nets))]
pub fn with_reset_nets(alloc: Global, model: FileModel) -> Result<FileModel, Memory>
    requires values { All HasValues model.decls }
    requires single { All (λ t. length t.outputs ≡ 1) model.resets }
    ensures { IfOk result (λ m. m ≡ with_reset_nets model) }
{
    if model.resets.is_empty() {
        return Ok(model);
    }
    let FileModel {
        name,
        inputs,
        outputs,
        decls,
        tables,
        latches,
        resets,
        instances,
    } = model;
    let decls = all_decls(alloc, decls, resets.as_slice())?;
    let tables = all_tables(alloc, tables, resets)?;
    Ok(FileModel {
        name,
        inputs,
        outputs,
        decls,
        tables,
        latches,
        resets: Items::new(alloc),
        instances,
    })
}

/// The name of a latch's reset net.
pub fn reset_name(alloc: Global, latch: &Name) -> Result<Name, Memory>
    ensures { IfOk result (λ name. name ≡ reset_name latch.now) }
{
    let mut bytes = Vec::new(alloc);
    bytes.push(b'.')?;
    bytes.extend_from_slice(latch.bytes())?;
    Name::new(alloc, bytes.as_slice())
}

/// The declarations, with one for each reset net.
fn all_decls(alloc: Global, decls: Items<Decl>, resets: &[FileTable]) -> Result<Items<Decl>, Memory>
    requires values { All HasValues decls }
    requires single { All (λ t. length t.outputs ≡ 1) resets.now }
    ensures { IfOk result (λ all. all ≡ decls ++ map (reset_decl decls) resets.now) }
{
    let mut more = reset_decls(alloc, decls.as_slice(), resets)?.into_vec();
    let mut all = decls.into_vec();
    all.append(&mut more)?;
    Ok(Items::of(all))
}

/// A declaration for each reset net.
fn reset_decls(alloc: Global, decls: &[Decl], resets: &[FileTable]) -> Result<Items<Decl>, Memory>
    requires values { All HasValues decls.now }
    requires single { All (λ t. length t.outputs ≡ 1) resets.now }
    ensures { IfOk result (λ more. more ≡ map (reset_decl decls.now) resets.now) }
{
    let declared = Declared::of(alloc, decls)?;
    let mut more = Items::new(alloc);
    for reset in resets {
        more.push(reset_decl(alloc, &declared, reset)?)?;
    }
    Ok(more)
}

/// The declaration of a reset net: it has the values of its latch.
fn reset_decl(alloc: Global, declared: &Declared<'_>, reset: &FileTable) -> Result<Decl, Memory>
    requires { length reset.now.outputs ≡ 1 }
    ensures { IfOk result (λ decl. decl ≡ reset_decl declared.now reset.now) }
{
    let latch = &reset.outputs.as_slice()[0];
    Ok(Decl {
        net: reset_name(alloc, latch)?,
        values: Items::of_names(alloc, declared.values_of(latch))?,
    })
}

/// The tables, and those of the reset nets among them, by line.
fn all_tables(
    alloc: Global,
    tables: Items<FileTable>,
    resets: Items<FileTable>,
) -> Result<Items<FileTable>, Memory>
    ensures { IfOk result (λ all. all ≡ by_line (λ t. t.line) (map reset_table resets) tables) }
{
    let mut rest = VecDeque::from(tables.into_vec());
    let mut all = Vec::new(alloc);
    for reset in resets.into_vec() {
        let table = reset_table(alloc, reset)?;
        move_before(&mut all, &mut rest, table.line)?;
        all.push(table)?;
    }
    let mut behind = Vec::from(rest);
    all.append(&mut behind)?;
    Ok(Items::of(all))
}

/// Moves the tables at the front that stand before the line.
fn move_before(
    all: &mut Vec<FileTable>,
    rest: &mut VecDeque<FileTable>,
    line: u32,
) -> Result<(), Memory>
    ensures moved { OnOk result
        (all.new.items ≡ all.old.items ++ before_line (λ t. t.line) line rest.old.items) }
    ensures rest { OnOk result (rest.new.items ≡ from_line (λ t. t.line) line rest.old.items) }
{
    while begins_before(rest, line) {
        if let Some(table) = rest.pop_front() {
            all.push(table)?;
        }
    }
    Ok(())
}

/// Whether the first of the tables stands before the line.
fn begins_before(tables: &VecDeque<FileTable>, line: u32) -> bool
    ensures { result ≡ nat_lt 0 (length (before_line (λ t. t.line) line tables.now.items)) }
{
    match tables.front() {
        Some(table) => table.line < line,
        None => false,
    }
}

/// The reset table as the table of a reset net.
fn reset_table(alloc: Global, reset: FileTable) -> Result<FileTable, Memory>
    ensures { IfOk result (λ table. table ≡ reset_table reset) }
{
    let outputs = reset_names(alloc, reset.outputs.as_slice())?;
    Ok(FileTable { outputs, ..reset })
}

/// The names of the reset nets of these latches.
fn reset_names(alloc: Global, latches: &[Name]) -> Result<Items<Name>, Memory>
    ensures { IfOk result (λ names. names ≡ map reset_name latches.now) }
{
    let mut names = Items::with_room(alloc, latches.len())?;
    for latch in latches {
        names.push(reset_name(alloc, latch)?)?;
    }
    Ok(names)
}
