ghost use Rattle.std.specs.Prelude.{◌≡◌, ◌≤◌, ℕ, false, is_some, true, Option};
ghost use Rattle.mv_base.specs.Meaning.{SameMeaning};
ghost use Rattle.mv_base.specs.declared.number.Value.{Value};
ghost use Rattle.mv_merging.specs.Nets.{net_behind};
ghost use Rattle.mv_merging.specs.Verdicts.{IsMergeVerdict};
ghost use Rattle.mv_merging.specs.declared.verdict.MergeVerdict.TheVariants.{Lawful};
ghost use Rattle.mv_net.specs.Allowed.{of_net};
ghost use Rattle.mv_net.specs.Formed.{WellFormed};
ghost use Rattle.mv_net.specs.Index.{is_seen};
ghost use Rattle.mv_net.specs.Nets.{slot, table_in, values_in};
ghost use Rattle.mv_net.specs.Total.{IsTotalNet};
ghost use Rattle.mv_net.specs.declared.parts.NetParts.{NetParts};

/// Values of a net with a table that isn't seen are merged where the verdict is lawful: the network is well formed and means what
/// it meant, each total table stays total, and no net has more values than before.
pub fn merging_laws()
    ensures formed { (net : NetParts) (n : ℕ) (gone : Value) (into : Option Value) → WellFormed net
        → is_some (table_in (slot net.nets n)) ≡ true → is_seen net n ≡ false
        → IsMergeVerdict net n gone into Lawful
        → WellFormed (net_behind net n gone into) }
    ensures means { (net : NetParts) (n : ℕ) (gone : Value) (into : Option Value) → WellFormed net
        → is_some (table_in (slot net.nets n)) ≡ true → is_seen net n ≡ false
        → IsMergeVerdict net n gone into Lawful
        → SameMeaning (of_net (net_behind net n gone into)) (of_net net) }
    ensures total { (net : NetParts) (n : ℕ) (gone : Value) (into : Option Value) (k : ℕ)
        → WellFormed net
        → is_some (table_in (slot net.nets n)) ≡ true → IsMergeVerdict net n gone into Lawful
        → IsTotalNet net.nets k → IsTotalNet (net_behind net n gone into).nets k }
    ensures few { (net : NetParts) (n : ℕ) (gone : Value) (into : Option Value) (k : ℕ)
        → is_some (table_in (slot net.nets n)) ≡ true → IsMergeVerdict net n gone into Lawful
        → values_in (slot (net_behind net n gone into).nets k) ≤ values_in (slot net.nets k) }
{}
