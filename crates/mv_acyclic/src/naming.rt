//! What the commands of a model name, by line.
ghost use Rattle.std.specs.Prelude.{◌≡◌, ◌++◌, map, IfOk, OnOk};
ghost use Rattle.mv_design.specs.ByLine.{before_line, by_line};
ghost use Rattle.mv_design.specs.Nets.{latch_naming, namings, table_naming};

use mv_base::{Memory, Name};
use mv_design::{FileLatch, FileModel, FileTable};
use std::alloc::Global;
use std::marker::Model;
use std::slice::from_ref;

/// What a command names: the line on which it stands, and its nets from left to right.
#[derive(Drop)]
pub struct Naming<'a> {
    line: u32,
    /// The nets that the command reads.
    inputs: &'a [Name],
    /// The nets behind them.
    outputs: &'a [Name],
}

impl<'a> Model for Naming<'a> {
    ghost use Rattle.std.specs.Prelude.{◌++◌};
    ghost use Rattle.mv_design.specs.Nets.{Naming};

    ghost Value = { Naming };

    ghost view = { λ n. record { line = n.line; nets = n.inputs.now ++ n.outputs.now } };
}

impl<'a> Naming<'a> {
    /// The line on which the command stands.
    fn line(&self) -> u32
        ensures { result ≡ self.now.line }
    {
        self.line
    }

    /// The nets that the command reads, and those behind them.
    pub fn parts(&self) -> (&'a [Name], &'a [Name])
        ensures { self.now.nets ≡ result.0.now ++ result.1.now }
    {
        (self.inputs, self.outputs)
    }

    /// The same, once more.
    fn copy(&self) -> Naming<'a>
        ensures { result ≡ self.now }
    {
        Naming {
            line: self.line,
            inputs: self.inputs,
            outputs: self.outputs,
        }
    }
}

/// What the commands of the model name, in the order of their lines.
#[tactic(auto, unfolding(mv_design::specs::Nets::namings))]
pub fn namings(alloc: Global, model: &FileModel) -> Result<Vec<Naming<'_>>, Memory>
    ensures { IfOk result (λ all. all.items ≡ namings model.now) }
{
    let tables = of_tables(alloc, model.tables.as_slice())?;
    let resets = of_tables(alloc, model.resets.as_slice())?;
    let latches = of_latches(alloc, model.latches.as_slice())?;
    let tables = by_line(alloc, resets.as_slice(), tables.as_slice())?;
    by_line(alloc, latches.as_slice(), tables.as_slice())
}

/// What tables name.
fn of_tables<'a>(alloc: Global, tables: &'a [FileTable]) -> Result<Vec<Naming<'a>>, Memory>
    ensures { IfOk result (λ all. all.items ≡ map table_naming tables.now) }
{
    let mut all = Vec::with_capacity(alloc, tables.len())?;
    for table in tables {
        all.push(Naming {
            line: table.line,
            inputs: table.inputs.as_slice(),
            outputs: table.outputs.as_slice(),
        })?;
    }
    Ok(all)
}

/// What latches name.
fn of_latches<'a>(alloc: Global, latches: &'a [FileLatch]) -> Result<Vec<Naming<'a>>, Memory>
    ensures { IfOk result (λ all. all.items ≡ map latch_naming latches.now) }
{
    let mut all = Vec::with_capacity(alloc, latches.len())?;
    for latch in latches {
        all.push(Naming {
            line: latch.line,
            inputs: from_ref(&latch.input),
            outputs: from_ref(&latch.output),
        })?;
    }
    Ok(all)
}

/// Two lists in one, each by ascending line: before each of the first stand those of the second that stand before its line.
fn by_line<'a>(
    alloc: Global,
    first: &[Naming<'a>],
    second: &[Naming<'a>],
) -> Result<Vec<Naming<'a>>, Memory>
    ensures { IfOk result (λ all. all.items ≡ by_line (λ x. x.line) first.now second.now) }
{
    let mut all = Vec::with_capacity(alloc, first.len() + second.len())?;
    let mut done = 0;
    for naming in first {
        let front = front_before(&second[done..], naming.line());
        add_all(&mut all, front)?;
        all.push(naming.copy())?;
        done += front.len();
    }
    add_all(&mut all, &second[done..])?;
    Ok(all)
}

/// Adds these behind the others.
fn add_all<'a>(all: &mut Vec<Naming<'a>>, namings: &[Naming<'a>]) -> Result<(), Memory>
    ensures { OnOk result (all.new.items ≡ all.old.items ++ namings.now) }
{
    for naming in namings {
        all.push(naming.copy())?;
    }
    Ok(())
}

/// Those at the front that stand before the line.
#[tactic(auto, using(mv_design::proofs::ByLine::front))]
pub fn front_before<'a, 'b>(namings: &'b [Naming<'a>], line: u32) -> &'b [Naming<'a>]
    ensures { result.now ≡ before_line (λ x. x.line) line namings.now }
{
    for (count, naming) in namings.iter().enumerate() {
        if naming.line() >= line {
            return &namings[..count];
        }
    }
    namings
}
