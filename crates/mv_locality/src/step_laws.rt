ghost use Rattle.std.specs.Prelude.{◌≡◌, ◌≤◌, ℕ, true, List};
ghost use Rattle.mv_net.specs.declared.parts.NetParts.{NetParts};
ghost use Rattle.mv_net.specs.Formed.{WellFormed};
ghost use Rattle.mv_net.specs.Index.{is_held};
ghost use Rattle.mv_net.specs.Nets.{slot, name_in, literals_in};
ghost use Rattle.mv_net.specs.Plain.{IsPlainConstant};
ghost use Rattle.mv_plans.specs.Checks.{IsTabled};
ghost use Rattle.mv_plans.specs.Collapsing.{Collapses};
ghost use Rattle.mv_plans.specs.Removing.{Removes};
ghost use Rattle.mv_plans.specs.Wiring.{Wires};
ghost use Rattle.mv_locality.specs.Local.{StaysAround};

/// Where a net goes, or goes into its readers, nothing changes but near it.
pub fn around_laws()
    ensures removed { (old : NetParts) (name : List ℕ) (new : NetParts) → (r : Removes old name new)
        → StaysAround old.nets new.nets r.number }
    ensures wired { (old : NetParts) (name : List ℕ) (new : NetParts) → WellFormed old
        → (r : Wires old name new)
        → StaysAround old.nets new.nets r.number }
    ensures collapsed { (old : NetParts) (name : List ℕ) (new : NetParts) → WellFormed old
        → (r : Collapses old name new)
        → StaysAround old.nets new.nets r.number }
{}

/// A rule that is given a net's name is about that net.
#[tactic(auto, using(crate::proofs::Steps::names_itself))]
pub fn named_by_itself()
    ensures { (net : NetParts) (name : List ℕ) (n m : ℕ) → WellFormed net
        → IsTabled net.nets name m → is_held net.nets n ≡ true
        → name ≡ name_in (slot net.nets n) → m ≡ n }
{}

/// Where a net goes, the readers of a plain buffer read its fanin, or a plain constant goes into its readers, no literals come.
pub fn literal_laws()
    ensures removed { (old : NetParts) (name : List ℕ) (new : NetParts) → Removes old name new
        → literals_in new.nets ≤ literals_in old.nets }
    ensures wired { (old : NetParts) (name : List ℕ) (new : NetParts) → Wires old name new
        → literals_in new.nets ≤ literals_in old.nets }
    ensures collapsed { (old : NetParts) (name : List ℕ) (new : NetParts) (v : ℕ) → WellFormed old
        → (r : Collapses old name new)
        → IsPlainConstant old.nets r.number v → literals_in new.nets ≤ literals_in old.nets }
{}
