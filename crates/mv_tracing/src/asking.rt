ghost use Rattle.std.specs.Prelude.{◌≡◌, ◌<◌, All, map, length, zip, slice_get};
ghost use Rattle.mv_net.specs.Order.{IsOrder};
ghost use Rattle.mv_trace.specs.Given.{IsStepOf, column_values, first_values, given_values, next_values, reset_value, reset_values};
ghost use Rattle.mv_tracing.specs.Giving.{AreOrdered, AsksFor, Gives};

use mv_base::{NetId, Value};
use mv_net::{FlatLatch, Network};
use mv_solve::Solver;
use mv_trace::RunStep;

/// Asks that these nets have these values besides.
fn ask_nets(solver: &mut Solver, nets: &[NetId], values: &[Value])
    requires long { length values.now ≡ length nets.now }
    requires held { AreOrdered solver.old.order
        (zip (map (λ n. n.0) nets.now) (map (λ v. v.0) values.now)) }
    ensures { Gives solver.old solver.new
        (zip (map (λ n. n.0) nets.now) (map (λ v. v.0) values.now)) }
{
    for (at, net) in nets.iter().enumerate() {
        solver.give(*net, values[at]);
    }
}

/// Asks that the latches have these values besides.
fn ask_outputs(solver: &mut Solver, latches: &[FlatLatch], values: &[Value])
    requires long { length values.now ≡ length latches.now }
    requires held { AreOrdered solver.old.order
        (zip (map (λ l. l.output.0) latches.now) (map (λ v. v.0) values.now)) }
    ensures { Gives solver.old solver.new
        (zip (map (λ l. l.output.0) latches.now) (map (λ v. v.0) values.now)) }
{
    for (at, latch) in latches.iter().enumerate() {
        solver.give(latch.output, values[at]);
    }
}

/// Asks that the inputs of the latches have these values besides.
fn ask_inputs(solver: &mut Solver, latches: &[FlatLatch], values: &[Value])
    requires long { length values.now ≡ length latches.now }
    requires held { AreOrdered solver.old.order
        (zip (map (λ l. l.input.0) latches.now) (map (λ v. v.0) values.now)) }
    ensures { Gives solver.old solver.new
        (zip (map (λ l. l.input.0) latches.now) (map (λ v. v.0) values.now)) }
{
    for (at, latch) in latches.iter().enumerate() {
        solver.give(latch.input, values[at]);
    }
}

/// Asks that the net, if there is one, has this value besides.
fn ask_reset(solver: &mut Solver, reset: Option<NetId>, value: Value)
    requires { AreOrdered solver.old.order (reset_value reset value.0) }
    ensures { Gives solver.old solver.new (reset_value reset value.0) }
{
    match reset {
        Some(net) => solver.give(net, value),
        None => {}
    }
}

/// Asks that the reset nets of the latches have these values besides.
fn ask_resets(solver: &mut Solver, latches: &[FlatLatch], values: &[Value])
    requires long { length values.now ≡ length latches.now }
    requires held { AreOrdered solver.old.order
        (reset_values latches.now (map (λ v. v.0) values.now)) }
    ensures { Gives solver.old solver.new (reset_values latches.now (map (λ v. v.0) values.now)) }
{
    for (at, latch) in latches.iter().enumerate() {
        ask_reset(solver, latch.reset, values[at]);
    }
}

/// Asks for the inputs, the latch values and the outputs of a step.
fn ask_columns(solver: &mut Solver, net: &Network, step: &RunStep)
    requires fits { IsStepOf net.now step.now }
    requires held { AreOrdered solver.old.order (column_values net.now step.now) }
    ensures { Gives solver.old solver.new (column_values net.now step.now) }
{
    ask_nets(solver, net.inputs(), step.inputs.list());
    ask_outputs(solver, net.latches(), step.latches.list());
    ask_nets(solver, net.outputs(), step.outputs.list());
}

/// Asks for the latch values of a step as reset values, where it is the first.
fn ask_first(solver: &mut Solver, net: &Network, k: usize, step: &RunStep)
    requires fits { IsStepOf net.now step.now }
    requires held { AreOrdered solver.old.order (first_values net.now k step.now) }
    ensures { Gives solver.old solver.new (first_values net.now k step.now) }
{
    if k == 0 {
        ask_resets(solver, net.latches(), step.latches.list());
    }
}

/// Asks for the latch values of a step, if there is one, at the inputs of the latches.
fn ask_next(solver: &mut Solver, net: &Network, run: &[RunStep], k: usize)
    requires fits { All (IsStepOf net.now) run.now }
    requires held { AreOrdered solver.old.order (next_values net.now (slice_get run.now k)) }
    ensures { Gives solver.old solver.new (next_values net.now (slice_get run.now k)) }
{
    if k < run.len() {
        ask_inputs(solver, net.latches(), run[k].latches.list());
    }
}

/// Asks for what a step of the run gives, and for nothing else.
pub fn ask_step(solver: &mut Solver, net: &Network, run: &[RunStep], k: usize)
    requires order { IsOrder net.now.nets solver.old.order }
    requires fits { All (IsStepOf net.now) run.now }
    requires within { k < length run.now }
    ensures { AsksFor solver.old solver.new (given_values net.now run.now k) }
{
    net.well_formed();
    solver.clear();
    let step = &run[k];
    ask_columns(solver, net, step);
    ask_first(solver, net, k, step);
    ask_next(solver, net, run, k + 1);
}
