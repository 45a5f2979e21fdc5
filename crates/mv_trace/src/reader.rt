ghost use Rattle.std.specs.Prelude.{◌≡◌, ◌+◌, ◌<◌, ◌≤◌, IsTrue, IfOk, OnOk, All, length, map};
ghost use Rattle.mv_net.specs.Index.{is_held};
ghost use Rattle.mv_fault.specs.Tells.{TellsFirst};
ghost use Rattle.mv_trace.specs.declared.fault.TraceFault.TheVariants.{Memory as out_of_memory};
ghost use Rattle.mv_trace.specs.Given.{IsStepOf};
ghost use Rattle.mv_trace.specs.Runs.{columns_of, row_said, step_of, step_said, run_said};
ghost use Rattle.mv_trace.specs.Runs.{word_faults, step_faults, run_faults};

use crate::value::value_of;
use crate::{MAX_STEPS, Run, RunStep, TraceFault, Values};
use mv_base::{Memory, NetId, Value};
use mv_lex::{LexLine, Lines};
use mv_net::Network;
use std::alloc::Global;

/// The nets of the columns of a run file.
fn columns_of(alloc: Global, net: &Network) -> Result<Vec<NetId>, Memory>
    ensures { IfOk result (λ columns. columns.items ≡ columns_of net.now) }
{
    let latches = net.latches();
    let mut columns = Vec::from_slice(alloc, net.inputs())?;
    for latch in latches {
        columns.push(latch.output)?;
    }
    columns.extend_from_slice(net.outputs())?;
    Ok(columns)
}

/// The values that the words of a line name, one a column.
fn read_row(
    alloc: Global,
    net: &Network,
    columns: &[NetId],
    line: &LexLine,
) -> Result<Vec<Value>, TraceFault>
    requires held { All (λ n. IsTrue (is_held net.now.nets n.0)) columns.now }
    requires width { length line.now.words ≡ length columns.now }
    ensures fault { TellsFirst out_of_memory result
        (word_faults net.now.nets columns.now line.now.number line.now.words) }
    ensures ok { IfOk result
        (λ row. map (λ v. v.0) row.items ≡ row_said net.now.nets columns.now line.now.words) }
{
    let words = line.words.as_slice();
    let mut row = Vec::with_capacity(alloc, columns.len())?;
    for (at, word) in words.iter().enumerate() {
        match value_of(net, columns[at], word.bytes()) {
            Some(value) => row.push(Value(value))?,
            None => {
                return Err(TraceFault::UnknownValue {
                    line: line.number,
                    word: word.copy()?,
                });
            }
        }
    }
    Ok(row)
}

/// The step of a row of values.
fn step_of(alloc: Global, net: &Network, row: &[Value]) -> Result<RunStep, Memory>
    requires { length net.now.inputs + length net.now.latches ≤ length row.now }
    ensures { IfOk result (λ step. step ≡ step_of net.now (map (λ v. v.0) row.now)) }
{
    let (inputs, others) = row.split_at(net.inputs().len());
    let (latches, outputs) = others.split_at(net.latches().len());
    Ok(RunStep {
        inputs: Values::new(alloc, inputs)?,
        latches: Values::new(alloc, latches)?,
        outputs: Values::new(alloc, outputs)?,
    })
}

/// The step that the line behind so many others says.
#[tactic(auto, using(mv_fault::proofs::Firsts::firsts), unfolding(crate::specs::Runs::step_faults))]
fn read_step(
    alloc: Global,
    net: &Network,
    columns: &[NetId],
    before: usize,
    line: &LexLine,
) -> Result<RunStep, TraceFault>
    requires { columns.now ≡ columns_of net.now }
    ensures fault { TellsFirst out_of_memory result (step_faults net.now (before, line.now)) }
    ensures few { OnOk result (before < MAX_STEPS) }
    ensures ok { IfOk result (λ step. step ≡ step_said net.now line.now) }
{
    net.well_formed();
    if before >= MAX_STEPS {
        return Err(TraceFault::Steps { line: line.number });
    }
    if line.words.len() != columns.len() {
        return Err(TraceFault::Columns {
            line: line.number,
            want: columns.len() as u64,
            got: line.words.len() as u64,
        });
    }
    let row = read_row(alloc, net, columns, line)?;
    Ok(step_of(alloc, net, row.as_slice())?)
}

/// The steps that the lines say, one a line.
#[tactic(auto, unfolding(crate::specs::Runs::run_said, crate::specs::Runs::run_faults))]
fn read_steps(lines: &Lines, net: &Network) -> Result<Vec<RunStep>, TraceFault>
    ensures fault { TellsFirst out_of_memory result (run_faults net.now lines.now) }
    ensures ok { IfOk result (λ steps. steps.items ≡ run_said net.now lines.now) }
{
    let alloc = *lines.list.allocator();
    let columns = columns_of(alloc, net)?;
    let lines = lines.as_slice();
    let mut steps = Vec::new(alloc);
    for (before, line) in lines.iter().enumerate() {
        steps.push(read_step(alloc, net, columns.as_slice(), before, line)?)?;
    }
    Ok(steps)
}

/// The run that the lines of a run file say, one step a line, or else the first fault of the lines, taken one by one: a
/// step too many is told before other words than columns, and these before the first word that names no value of its
/// column's net. The values of a run that is read are values of their nets. It takes memory for the run, and for one
/// line besides.
pub fn read_run(lines: &Lines, net: &Network) -> Result<Run, TraceFault>
    ensures fault { TellsFirst out_of_memory result (run_faults net.now lines.now) }
    ensures ok { IfOk result (λ run. run ≡ run_said net.now lines.now) }
    ensures fits { IfOk result (All (IsStepOf net.now)) }
{
    net.well_formed();
    let steps = read_steps(lines, net)?;
    Ok(Run { steps })
}
