ghost use Rattle.std.specs.Prelude.{◌≡◌, ℕ};
ghost use Rattle.mv_alike.specs.Merges.{HasNoMerge, IsNextMerge};
ghost use Rattle.mv_alike.specs.declared.next.NextMerge.{NextMerge as a_merge};
ghost use Rattle.mv_merging.specs.Verdicts.{IsMergeVerdict};
ghost use Rattle.mv_merging.specs.declared.verdict.MergeVerdict.TheVariants.{Lawful};
ghost use Rattle.mv_net.specs.declared.parts.NetParts.{NetParts};

/// The merge that comes first at a net is lawful, there is one at most, and none where the net has no merge.
pub fn next_merge_laws()
    ensures lawful { (net : NetParts) (n : ℕ) (next : a_merge) → IsNextMerge net.nets n next
        → IsMergeVerdict net n next.gone next.into Lawful }
    ensures one { (net : NetParts) (n : ℕ) (a b : a_merge) → IsNextMerge net.nets n a
        → IsNextMerge net.nets n b → a ≡ b }
    ensures none { (net : NetParts) (n : ℕ) (next : a_merge) → HasNoMerge net.nets n
        → IsNextMerge net.nets n next → ⊥ }
{}
