ghost use Rattle.std.specs.Prelude.{◌≡◌, IfOk, length};
ghost use Rattle.mv_net.specs.Order.{IsOrder};
ghost use Rattle.mv_task.specs.Ends.{WorkEnds, sinks};
ghost use Rattle.mv_task.specs.Lines.{TellsLine, memory_line};
ghost use Rattle.mv_tracing.specs.Traced.{trace_work};

use crate::deciding::first_unshown;
use crate::tell::tell_fault;
use crate::writing::put_yes;
use mv_base::{Memory, Sink, Value};
use mv_lex::Lines;
use mv_net::Network;
use mv_solve::Solver;
use mv_task::tell;
use mv_trace::{TraceFault, put_no, read_run};
use std::alloc::Global;

/// What the decision of a run takes: a solver, and room for a value of each net.
#[derive(Drop)]
struct Room {
    solver: Solver,
    values: Vec<Value>,
}

/// All the memory that the decision of a run takes.
fn room_for(alloc: Global, net: &Network) -> Result<Room, Memory>
    ensures order { IfOk result (λ room. IsOrder net.now.nets room.solver.order) }
    ensures values { IfOk result (λ room. length room.values.items ≡ length net.now.nets) }
{
    let solver = Solver::with_room(net)?;
    let values = vec![in alloc; Value(0); net.next_number() as usize]?;
    Ok(Room { solver, values })
}

/// Puts the line of want of memory to the notes. The answer is its status.
fn stop_short<E: Sink>(notes: &mut E) -> u8
    ensures status { result ≡ 6 }
    ensures tells { TellsLine (E.state notes.old) (E.state notes.new) memory_line }
{
    tell(b"# fault memory\n", notes);
    6
}

/// Decides the run that the lines say, step by step, and puts the answer to the output. Once all memory is taken and the steps are
/// decided, it takes none. The answer is the status.
pub fn carry_out<O: Sink, E: Sink>(
    alloc: Global,
    net: &Network,
    lines: &Lines,
    out: &mut O,
    notes: &mut E,
) -> u8
    ensures { WorkEnds (trace_work net.now lines.now)
        (sinks (O.state out.old) (E.state notes.old)) (sinks (O.state out.new) (E.state notes.new))
        result }
{
    net.well_formed();
    let run = match read_run(lines, net) {
        Ok(run) => run,
        Err(TraceFault::Memory) => return stop_short(notes),
        Err(fault) => {
            tell_fault(&fault, notes);
            return 11;
        }
    };
    let mut room = match room_for(alloc, net) {
        Ok(room) => room,
        Err(Memory) => return stop_short(notes),
    };
    let steps = run.as_slice();
    if let Some(step) = first_unshown(&mut room.solver, net, steps) {
        return match put_no(step as u32, out) {
            Ok(()) => 9,
            Err(_failed) => 5,
        };
    }
    match put_yes(
        &mut room.solver,
        net,
        steps,
        room.values.as_mut_slice(),
        out,
    ) {
        Ok(()) => 0,
        Err(_failed) => 5,
    }
}
