ghost use Rattle.std.specs.Prelude.{◌≡◌, ℕ, Bool, List, Option, Some};
ghost use Rattle.mv_cover.specs.declared.cover.Cover.{Cover};
ghost use Rattle.mv_meaning.specs.Narrowing.{AreTotalBelow, KeepsSome, ReadsWithin};
ghost use Rattle.mv_meaning.specs.Rewriting.{with_net_table};
ghost use Rattle.mv_net.specs.declared.parts.FlatNet.{FlatNet};
ghost use Rattle.mv_net.specs.Nets.{slot, table_in};
ghost use Rattle.mv_net.specs.Total.{IsTotalNet};
ghost use Rattle.mv_partial.specs.Partial.{ArePartial};

/// A total table above total tables gives way to another one, which reads no net besides and allows something wherever the old one
/// did: from the same nets on some table isn't total.
#[tactic(auto, using(crate::proofs::Keeping::marks_stay))]
pub fn partial_nets_stay()
    ensures { (nets : List (Option FlatNet)) (n : ℕ) (old new : Cover) (marks : List Bool)
        → table_in (slot nets n) ≡ Some old → ReadsWithin old new → KeepsSome nets old new
        → IsTotalNet nets n → AreTotalBelow nets n → ArePartial nets marks
        → ArePartial (with_net_table nets n new) marks }
{}
