ghost use Rattle.std.specs.Prelude.{◌≡◌, ℕ, Bool, false, Some, List};
ghost use Rattle.mv_base.specs.Meaning.{Refines, SameMeaning};
ghost use Rattle.mv_blif_back.specs.Said.{AreSaid, IsBinary, inits};
ghost use Rattle.mv_chosen.specs.Written.{AreFirstValues, written_nets};
ghost use Rattle.mv_cover.specs.declared.cover.Cover.{Cover};
ghost use Rattle.mv_cover.specs.Plain.{AllowsOne};
ghost use Rattle.mv_entry.specs.declared.rule.Rule.{Rule};
ghost use Rattle.mv_latch.specs.declared.latch.BlifLatch.{BlifLatch};
ghost use Rattle.mv_net.specs.declared.parts.NetParts.{NetParts};
ghost use Rattle.mv_net.specs.Allowed.{of_net};
ghost use Rattle.mv_net.specs.Changes.{with_nets};
ghost use Rattle.mv_net.specs.Formed.{WellFormed};
ghost use Rattle.mv_net.specs.Nets.{slot, table_in};
ghost use Rattle.mv_net.specs.Total.{IsTotal};
ghost use Rattle.mv_rules.specs.Replaying.{Replays};

/// Where each table of a network is total nothing is free: what may take its place where others are free may take it where none is.
pub fn nothing_is_free()
    ensures { (free : Bool) (b a : NetParts) → WellFormed b → WellFormed a
        → ((n : ℕ) (c : Cover) → table_in (slot a.nets n) ≡ Some c → IsTotal a.nets c)
        → Refines free (of_net b) (of_net a) → Refines false (of_net b) (of_net a) }
{}

/// What rules leave of a network that can be written as BLIF can be written so too, with the same said of its latches. Where each
/// table of the first network allows one value at most, and that always resets each latch with a reset net to the value which is
/// said to be its first, what is written means what the first network meant.
pub fn blif_rules()
    ensures binary { (free : Bool) (rules : List Rule) (first net : NetParts) → WellFormed first
        → IsBinary first → Replays free rules first net → IsBinary net }
    ensures said { (free : Bool) (rules : List Rule) (first net : NetParts) (bs : List BlifLatch)
        → WellFormed first → AreSaid first first.latches bs → Replays free rules first net
        → AreSaid net net.latches bs }
    ensures means { (free : Bool) (rules : List Rule) (first net : NetParts) (bs : List BlifLatch)
        → WellFormed first → IsBinary first → AreFirstValues first (inits bs)
        → ((n : ℕ) (c : Cover) → table_in (slot first.nets n) ≡ Some c → AllowsOne c)
        → Replays free rules first net
        → SameMeaning (of_net (with_nets net (written_nets net (inits bs)))) (of_net first) }
{}
