ghost use Rattle.std.specs.Prelude.{◌≡◌, ◌⊎◌, ℕ, Bool, List, Some};
ghost use Rattle.mv_choose.specs.Choices.{DeterminizesAll, DeterminizesSome};
ghost use Rattle.mv_cover.specs.Plain.{IsPlainlyDeterministic};
ghost use Rattle.mv_cover.specs.declared.cover.Cover.{Cover};
ghost use Rattle.mv_entry.specs.Entries.{Entry, rules_of};
ghost use Rattle.mv_net.specs.declared.parts.NetParts.{NetParts};
ghost use Rattle.mv_net.specs.Formed.{WellFormed};
ghost use Rattle.mv_net.specs.Nets.{slot, table_in};
ghost use Rattle.mv_rules.specs.Replaying.{Replays};
ghost use Rattle.mv_visit.specs.Visits.{HasNote};

/// However far `determinize` comes, its rules apply in turn, whatever is free. At its end each table is plainly deterministic, but of
/// nets of which it is noted why they stay.
pub fn determinize_laws()
    ensures replays { (free : Bool) (old new : NetParts) (steps : List Entry)
        → DeterminizesSome old steps new
        → Replays free (rules_of steps) old new }
    ensures plain { (old new : NetParts) (steps : List Entry) → WellFormed old
        → DeterminizesAll old steps new
        → (n : ℕ) (table : Cover) → table_in (slot new.nets n) ≡ Some table
        → IsPlainlyDeterministic table ⊎ HasNote new n steps }
{}
