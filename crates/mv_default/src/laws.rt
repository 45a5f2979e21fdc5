ghost use Rattle.std.specs.Prelude.{◌≡◌, ◌≤◌, ℕ, List, None, false};
ghost use Rattle.mv_cover.specs.Absorb.{some_bare};
ghost use Rattle.mv_cover.specs.Complement.{AllowSame};
ghost use Rattle.mv_cover.specs.Covering.{CoversAll};
ghost use Rattle.mv_cover.specs.Covers.{literal_count};
ghost use Rattle.mv_cover.specs.Plain.{IsPlainlyDeterministic};
ghost use Rattle.mv_cover.specs.declared.cover.Cover.{Cover};
ghost use Rattle.mv_default.specs.Taken.{HasCubes, TakesDefault};

/// A plainly deterministic cover whose lines match every point may take a default: it allows what it did, has no more literals, and
/// the default does count. There is one way to take it.
pub fn default_laws()
    ensures relation { (counts : List ℕ) (old new : Cover) → IsPlainlyDeterministic old
        → old.default ≡ None
        → CoversAll counts old.lines → TakesDefault old new → AllowSame counts new old }
    ensures literals { (old new : Cover) → TakesDefault old new
        → literal_count new.lines ≤ literal_count old.lines }
    ensures counts { (old new : Cover) → HasCubes old → IsPlainlyDeterministic old
        → TakesDefault old new
        → some_bare new.lines ≡ false }
    ensures one { (old new other : Cover) → TakesDefault old new → TakesDefault old other
        → new ≡ other }
{}
