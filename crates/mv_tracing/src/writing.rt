ghost use Rattle.std.specs.Prelude.{◌≡◌, ◌^◌, ◌<◌, ◌≤◌, ℕ, All, length, map, slice_index};
ghost use Rattle.mv_net.specs.Order.{IsOrder};
ghost use Rattle.mv_page.specs.Page.{paged};
ghost use Rattle.mv_trace.specs.Answer.{at_of};
ghost use Rattle.mv_trace.specs.declared.run.TheConstants.{MAX_STEPS as most_steps};
ghost use Rattle.mv_trace.specs.Given.{IsStepOf};
ghost use Rattle.mv_tracing.specs.Steps.{AllShown, IsStepShown, PutsSteps, PutsStep, PutsYes};

use crate::deciding::shows;
use mv_base::{Failed, NetId, Sink, Value};
use mv_net::Network;
use mv_solve::Solver;
use mv_trace::{AnswerPage, RunStep, put_names, put_step};

/// Keeps the values that the solver found last.
fn keep_values(solver: &Solver, values: &mut [Value])
    requires few { length values.old < 2 ^ 32 }
    ensures long { length values.new ≡ length values.old }
    ensures kept { (n : ℕ) → n < length values.new
        → at_of (map (λ v. v.0) values.new) n ≡ slice_index solver.now.values n }
{
    for n in 0..values.len() {
        values[n] = solver.value(NetId(n as u32));
    }
}

/// Appends the line of step k, which some assignment shows, with the values of such a one.
fn put_shown<K: Sink>(
    solver: &mut Solver,
    net: &Network,
    run: &[RunStep],
    k: u32,
    values: &mut [Value],
    page: &mut AnswerPage,
    out: &mut K,
) -> Result<(), Failed>
    requires order { IsOrder net.now.nets solver.old.order }
    requires fits { All (IsStepOf net.now) run.now }
    requires within { k < length run.now }
    requires shown { IsStepShown net.now run.now k }
    requires room { length values.old ≡ length net.now.nets }
    ensures puts { PutsStep net.now run.now k (paged (K.state out.old) page.old)
        (paged (K.state out.new) page.new) result }
    ensures order { solver.new.order ≡ solver.old.order }
    ensures room { length values.new ≡ length values.old }
{
    net.few();
    let _shown = shows(solver, net, run, k as usize);
    keep_values(solver, values);
    put_step(net, k, values, page, out)
}

/// Appends the lines of all steps.
fn put_steps<K: Sink>(
    solver: &mut Solver,
    net: &Network,
    run: &[RunStep],
    values: &mut [Value],
    page: &mut AnswerPage,
    out: &mut K,
) -> Result<(), Failed>
    requires order { IsOrder net.now.nets solver.old.order }
    requires fits { All (IsStepOf net.now) run.now }
    requires few { length run.now ≤ most_steps }
    requires shown { AllShown net.now run.now }
    requires room { length values.old ≡ length net.now.nets }
    ensures { PutsSteps net.now run.now (paged (K.state out.old) page.old)
        (paged (K.state out.new) page.new) result }
{
    for k in 0..run.len() as u32 {
        match put_shown(solver, net, run, k, values, page, out) {
            Ok(()) => {}
            Err(failed) => return Err(failed),
        }
    }
    Ok(())
}

/// Puts the answer of an allowed run. It takes no memory: each step is searched again when it is put.
pub fn put_yes<K: Sink>(
    solver: &mut Solver,
    net: &Network,
    run: &[RunStep],
    values: &mut [Value],
    out: &mut K,
) -> Result<(), Failed>
    requires order { IsOrder net.now.nets solver.old.order }
    requires fits { All (IsStepOf net.now) run.now }
    requires few { length run.now ≤ most_steps }
    requires shown { AllShown net.now run.now }
    requires room { length values.old ≡ length net.now.nets }
    ensures { PutsYes net.now run.now (K.state out.old) (K.state out.new) result }
{
    let mut page = AnswerPage::of(b"yes\n");
    match put_names(net, &mut page, out) {
        Ok(()) => {}
        Err(failed) => return Err(failed),
    }
    match put_steps(solver, net, run, values, &mut page, out) {
        Ok(()) => {}
        Err(failed) => return Err(failed),
    }
    page.hand_on(out)
}
