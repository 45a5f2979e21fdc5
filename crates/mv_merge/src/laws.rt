ghost use Rattle.std.specs.Prelude.{◌≡◌, ◌≤◌, ◌<◌, ℕ, Bool, true, List, is_some};
ghost use Rattle.mv_alike.specs.Merges.{AreAlikeInOrder, GivesEach};
ghost use Rattle.mv_entry.specs.Entries.{Entry, rules_of};
ghost use Rattle.mv_merge.specs.Merges.{IsMerged, MergesSome};
ghost use Rattle.mv_net.specs.declared.parts.NetParts.{NetParts};
ghost use Rattle.mv_net.specs.Formed.{WellFormed};
ghost use Rattle.mv_net.specs.Nets.{slot, values_in, table_in, literals_in};
ghost use Rattle.mv_plans.specs.Checks.{IsUnseen};
ghost use Rattle.mv_rules.specs.Replaying.{Replays};

/// However far `merge` comes, its rules apply in turn, whatever is free, and it leaves no more literals than there were.
pub fn merge_laws()
    ensures replays { (free : Bool) (old new : NetParts) (steps : List Entry)
        → MergesSome free old steps new
        → Replays free (rules_of steps) old new }
    ensures no_more { (free : Bool) (old new : NetParts) (steps : List Entry) → WellFormed old
        → MergesSome free old steps new
        → literals_in new.nets ≤ literals_in old.nets }
{}

/// What all of `merge` leaves: a net that nobody outside sees and that has a table gives each of its values, if it has two or more,
/// and of any two of them some literal has just one.
pub fn merged_laws()
    ensures given { (net : NetParts) (n : ℕ) → IsMerged net → IsUnseen net n
        → is_some (table_in (slot net.nets n)) ≡ true
        → 1 < values_in (slot net.nets n) → GivesEach net.nets n }
    ensures apart { (net : NetParts) (n : ℕ) → IsMerged net → IsUnseen net n
        → is_some (table_in (slot net.nets n)) ≡ true
        → (v w : ℕ) → AreAlikeInOrder net.nets n v w → ⊥ }
{}
