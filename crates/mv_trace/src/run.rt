ghost use Rattle.std.specs.Prelude.{◌≡◌};

use crate::Values;
use std::marker::Model;

/// The most steps of a run.
pub const MAX_STEPS: usize = 100_000;

/// A step of a run: the values of the root's inputs, of the outputs of the latches, and of the root's outputs, each in
/// the order of the interface.
#[derive(Debug, Drop)]
pub struct RunStep {
    pub inputs: Values,
    pub latches: Values,
    pub outputs: Values,
}

/// A recorded run of a network, from reset on: its steps in order.
#[derive(Debug, Drop)]
pub struct Run {
    pub steps: Vec<RunStep>,
}

impl Model for Run {
    ghost use Rattle.std.specs.Prelude.{List};
    ghost use Rattle.mv_trace.specs.declared.run.RunStep.{RunStep};

    ghost Value = { List RunStep };

    ghost view = { λ run. run.steps.items };
}

impl Run {
    /// The steps.
    pub fn as_slice(&self) -> &[RunStep]
        ensures { result.now ≡ self.now }
    {
        self.steps.as_slice()
    }
}
