ghost use Rattle.std.specs.Prelude.{◌≡◌, ◌<◌, ◌≤◌, ℕ, List, [], All, length, map};
ghost use Rattle.mv_lex.specs.declared.lines.LexLine.{LexLine};
ghost use Rattle.mv_net.specs.declared.parts.NetParts.{NetParts};
ghost use Rattle.mv_net.specs.Formed.{WellFormed};
ghost use Rattle.mv_net.specs.Allowed.{of_net};
ghost use Rattle.mv_trace.specs.declared.run.RunStep.{RunStep};
ghost use Rattle.mv_trace.specs.Allowed.{StepAllowed};
ghost use Rattle.mv_trace.specs.declared.run.TheConstants.{MAX_STEPS as most_steps};
ghost use Rattle.mv_trace.specs.Runs.{run_faults, run_said, step_words};
ghost use Rattle.mv_trace.specs.Given.{IsStepOf, given_values, IsGiven, Shows, IsShown};

/// A step of a run is allowed by a well-formed network exactly where some assignment that agrees with it has the values
/// that the step gives: so who looks for an assignment decides the step. Each value is given to a net that is held, and
/// is one of the net's.
pub fn step_laws()
    ensures assigned { (net : NetParts) (run : List RunStep) (k : ℕ)
        → StepAllowed (of_net net) run k → IsShown net (given_values net run k) }
    ensures allowed { (net : NetParts) (run : List RunStep) (k : ℕ) → WellFormed net
        → All (IsStepOf net) run → k < length run → (at : ℕ → ℕ)
        → Shows net (given_values net run k) at → StepAllowed (of_net net) run k }
    ensures lawful { (net : NetParts) (run : List RunStep) (k : ℕ) → WellFormed net
        → All (IsStepOf net) run → All (IsGiven net.nets) (given_values net run k) }
{}

/// The words of lines without faults are the names of the values of the steps that they say, from left to right; and
/// lines with the words of the steps of a run that isn't too long have no fault, and say this run.
pub fn run_laws()
    ensures spelled { (net : NetParts) (lines : List LexLine) → WellFormed net
        → run_faults net lines ≡ []
        → map (λ (l : LexLine). l.words) lines ≡ map (step_words net) (run_said net lines) }
    ensures read { (net : NetParts) (lines : List LexLine) (run : List RunStep) → WellFormed net
        → length run ≤ most_steps → All (IsStepOf net) run
        → map (λ (l : LexLine). l.words) lines ≡ map (step_words net) run
        → (run_faults net lines ≡ []) × (run_said net lines ≡ run) }
{}
