ghost use Rattle.std.specs.Prelude.{◌≡◌, ◌⊎◌, ℕ, IsTrue, is_some, IsSomeAnd, List, Some};
ghost use Rattle.mv_base.specs.Outside.{Rose};
ghost use Rattle.mv_command_line.specs.CommandLine.{Files, Names, opt, check, trace};
ghost use Rattle.mv_task.specs.Ends.{Ends, Outside};
ghost use Rattle.mv_task.specs.Exact.{IsUnhindered};
ghost use Rattle.mv_run.specs.Again.{HoldsNoted, WriteSame, HoldsRefused, HoldsReplay, checking};
ghost use Rattle.mv_run.specs.Doing.{format_by, task_asked};
ghost use Rattle.mv_run.specs.Tracing.{HoldsRefusedRun};

/// A check, on the same network file and with `--free` and `--blif` as they were, of what `opt` noted at status 0, which has as many bytes as a
/// certificate may have. It writes the bytes that `opt` wrote, or ends with 4, 5 or 6. (Where the notes have more bytes it ends with 7.)
pub fn notes_check()
    ensures same { (f : Files) (certificate : List ℕ) (old new later later' : Outside)
        → Ends (task_asked (Some (opt f))) old new 0
        → HoldsNoted f.net certificate old.files later.files old.sinks.notes new.sinks.notes
        → Ends (task_asked (Some (check (checking f certificate)))) later later' 0
        → WriteSame old.sinks.out new.sinks.out later.sinks.out later'.sinks.out }
    ensures accepted { (f : Files) (certificate : List ℕ) (old new later later' : Outside)
        (status : ℕ)
        → Ends (task_asked (Some (opt f))) old new 0
        → HoldsNoted f.net certificate old.files later.files old.sinks.notes new.sinks.notes
        → Ends (task_asked (Some (check (checking f certificate)))) later later' status
        → (status ≡ 0) ⊎ (status ≡ 4) ⊎ (status ≡ 5) ⊎ (status ≡ 6) }
{}

/// A check ends with 7 exactly where the certificate's text is refused, or the network is accepted and a rule of the certificate
/// doesn't apply on the terms of the check where those before it have led; a read that fails and want of memory alone come before.
pub fn refused_exactly()
    ensures only { (f : Files) (old new : Outside) → Ends (task_asked (Some (check f))) old new 7
        → HoldsRefused (format_by f.blif) f.free f.net f.other old.files }
    ensures always { (f : Files) (old new : Outside) (status : ℕ)
        → Ends (task_asked (Some (check f))) old new status
        → IsTrue (is_some old.files.held)
        → HoldsRefused (format_by f.blif) f.free f.net f.other old.files
        → IsUnhindered status → status ≡ 7 }
{}

/// A check of a certificate whose rules do apply in turn, over sound files that hold it and an accepted network, is done or ends for
/// want of memory, where no count of the output's and of the notes' faults rises.
pub fn replays_succeed()
    ensures { (f : Files) (old new : Outside) (status : ℕ)
        → Ends (task_asked (Some (check f))) old new status
        → IsSomeAnd old.files.held (λ held. IsTrue held.sound)
        → HoldsReplay (format_by f.blif) f.free f.net f.other old.files
        → (Rose old.sinks.out.faults new.sinks.out.faults → ⊥)
        → (Rose old.sinks.notes.faults new.sinks.notes.faults → ⊥)
        → (status ≡ 0) ⊎ (status ≡ 6) }
{}

/// A trace ends with 11 exactly where the network is accepted and the run file is refused, its bytes or its lines; a read that fails and
/// want of memory alone come before.
pub fn run_refused_exactly()
    ensures only { (n : Names) (old new : Outside) → Ends (task_asked (Some (trace n))) old new 11
        → HoldsRefusedRun n old.files }
    ensures always { (n : Names) (old new : Outside) (status : ℕ)
        → Ends (task_asked (Some (trace n))) old new status
        → IsTrue (is_some old.files.held) → HoldsRefusedRun n old.files
        → IsUnhindered status → status ≡ 11 }
{}
