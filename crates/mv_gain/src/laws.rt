ghost use Rattle.std.specs.Prelude.{◌≡◌, ℕ, List};
ghost use Rattle.mv_net.specs.declared.parts.NetParts.{NetParts};
ghost use Rattle.mv_plans.specs.Collapsing.{Collapses};
ghost use Rattle.mv_plans.specs.Removing.{Removes};
ghost use Rattle.mv_plans.specs.Wiring.{Wires};
ghost use Rattle.mv_gain.specs.declared.kept.KeptComposites.{KeptComposites};
ghost use Rattle.mv_gain.specs.Kept.{AreRight, RightBehind};

/// What is kept with all forgotten near a net is right behind each rule by which that net goes, or goes into its readers.
pub fn behind_laws()
    ensures removed { (net new : NetParts) (name : List ℕ) (kept : KeptComposites) (n : ℕ)
        → RightBehind net n kept
        → (r : Removes net name new) → r.number ≡ n → AreRight new.nets kept }
    ensures wired { (net new : NetParts) (name : List ℕ) (kept : KeptComposites) (n : ℕ)
        → RightBehind net n kept
        → (r : Wires net name new) → r.number ≡ n → AreRight new.nets kept }
    ensures collapsed { (net new : NetParts) (name : List ℕ) (kept : KeptComposites) (n : ℕ)
        → RightBehind net n kept
        → (r : Collapses net name new) → r.number ≡ n → AreRight new.nets kept }
{}
