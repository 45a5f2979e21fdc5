ghost use Rattle.std.specs.Prelude.{◌≤◌, ℕ, Bool, List};
ghost use Rattle.mv_entry.specs.Entries.{Entry, rules_of};
ghost use Rattle.mv_net.specs.declared.parts.NetParts.{NetParts};
ghost use Rattle.mv_net.specs.Formed.{WellFormed};
ghost use Rattle.mv_net.specs.Nets.{literals_in};
ghost use Rattle.mv_rules.specs.declared.terms.Terms.{Terms};
ghost use Rattle.mv_rules.specs.Replaying.{Replays};
ghost use Rattle.mv_simplify.specs.Simplifies.{SimplifiesSome};

/// However far `simplify` comes, its rules apply in turn, whatever is free, and it leaves no more literals than there were.
pub fn simplify_laws()
    ensures replays { (free : Bool) (terms : Terms) (d u : ℕ) (old new : NetParts)
        (steps : List Entry) → SimplifiesSome terms d u old steps new
        → Replays free (rules_of steps) old new }
    ensures no_more { (terms : Terms) (d u : ℕ) (old new : NetParts) (steps : List Entry)
        → WellFormed old → SimplifiesSome terms d u old steps new
        → literals_in new.nets ≤ literals_in old.nets }
{}
