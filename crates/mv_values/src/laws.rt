ghost use Rattle.std.specs.Prelude.{◌≤◌, Bool, List};
ghost use Rattle.mv_entry.specs.Entries.{Entry, rules_of};
ghost use Rattle.mv_net.specs.declared.parts.NetParts.{NetParts};
ghost use Rattle.mv_net.specs.Formed.{WellFormed};
ghost use Rattle.mv_net.specs.Nets.{literals_in};
ghost use Rattle.mv_rules.specs.Replaying.{Replays};
ghost use Rattle.mv_values.specs.Defaults.{DefaultsSome};

/// However far `default` comes, its rules apply in turn, whatever is free, and it leaves no more literals than there were.
pub fn default_laws()
    ensures replays { (free : Bool) (old new : NetParts) (steps : List Entry)
        → DefaultsSome old steps new
        → Replays free (rules_of steps) old new }
    ensures no_more { (old new : NetParts) (steps : List Entry) → WellFormed old
        → DefaultsSome old steps new
        → literals_in new.nets ≤ literals_in old.nets }
{}
