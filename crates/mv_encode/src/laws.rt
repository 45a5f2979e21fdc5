ghost use Rattle.std.specs.Prelude.{◌⊎◌, ℕ, Bool, List};
ghost use Rattle.mv_encode.specs.Encodes.{EncodesAll, EncodesSome, IsCutShort, IsToEncode};
ghost use Rattle.mv_entry.specs.Entries.{Entry, rules_of};
ghost use Rattle.mv_net.specs.declared.parts.NetParts.{NetParts};
ghost use Rattle.mv_net.specs.Formed.{WellFormed};
ghost use Rattle.mv_rules.specs.Replaying.{Replays};
ghost use Rattle.mv_visit.specs.Visits.{HasNote};

/// However far `encode` comes, its rules apply in turn, whatever is free. At its end each net that isn't seen and has a table has at
/// most two values, but nets of which it is noted why they stay; or the last of its notes says that the numbers ran out.
pub fn encode_laws()
    ensures replays { (free : Bool) (old new : NetParts) (steps : List Entry)
        → EncodesSome old steps new → Replays free (rules_of steps) old new }
    ensures few { (old new : NetParts) (steps : List Entry) → WellFormed old
        → EncodesAll old steps new
        → (n : ℕ) → IsToEncode new n → HasNote new n steps ⊎ IsCutShort steps }
{}
