ghost use Rattle.std.specs.Prelude.{◌≡◌, ◌<◌, All, MatchBool, MatchOption, length, slice_index};
ghost use Rattle.mv_net.specs.Order.{IsOrder};
ghost use Rattle.mv_trace.specs.Given.{IsStepOf, Shows, given_values};
ghost use Rattle.mv_tracing.specs.Steps.{AllShown, IsFirstUnshown, IsStepShown};

use crate::asking::ask_step;
use mv_net::Network;
use mv_solve::Solver;
use mv_trace::RunStep;

/// Whether some assignment shows step k, and then the solver's values are such a one. No memory.
pub fn shows(solver: &mut Solver, net: &Network, run: &[RunStep], k: usize) -> bool
    requires order { IsOrder net.now.nets solver.old.order }
    requires fits { All (IsStepOf net.now) run.now }
    requires within { k < length run.now }
    ensures shown { MatchBool result
        (Shows net.now (given_values net.now run.now k) (slice_index solver.new.values))
        (IsStepShown net.now run.now k → ⊥) }
    ensures order { solver.new.order ≡ solver.old.order }
{
    ask_step(solver, net, run, k);
    solver.solve(net)
}

/// The first step that no assignment shows, if there is one. No memory.
pub fn first_unshown(solver: &mut Solver, net: &Network, run: &[RunStep]) -> Option<usize>
    requires order { IsOrder net.now.nets solver.old.order }
    requires fits { All (IsStepOf net.now) run.now }
    ensures found { MatchOption result (AllShown net.now run.now) (IsFirstUnshown net.now run.now) }
    ensures order { solver.new.order ≡ solver.old.order }
{
    for k in 0..run.len() {
        if !shows(solver, net, run, k) {
            return Some(k);
        }
    }
    None
}
