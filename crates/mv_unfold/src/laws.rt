//! What the faults of a whole say of it, and what the one model is where it has none.
ghost use Rattle.std.specs.Prelude.{◌≡◌, ℕ, List, [], All};
ghost use Rattle.mv_base.specs.Names.{among};
ghost use Rattle.mv_fault.specs.declared.flat.FlatFault.{FlatFault};
ghost use Rattle.mv_design.specs.declared.design.Design.{Design};
ghost use Rattle.mv_design.specs.declared.design.FileModel.{FileModel};
ghost use Rattle.mv_design.specs.Nets.{nets_of};
ghost use Rattle.mv_design.specs.Proper.{IsLawful};
ghost use Rattle.mv_tree.specs.Tree.{Instances, NoMore, Unfolds};
ghost use Rattle.mv_tree.specs.Places.{homes, places};
ghost use Rattle.mv_tree.specs.Unfolded.{unfolded};
ghost use Rattle.mv_tree.specs.Bound.{AreBound, IsWhole};
ghost use Rattle.mv_acyclic.specs.Sound.{HasResetsOfLatches, IsDrivenOnce, IsWithinLimits};
ghost use Rattle.mv_walk.specs.Trees.{IsRootNamed};
ghost use Rattle.mv_unfold.specs.Sound.{IsFault, IsSound, IsWithinDesignLimits};
ghost use Rattle.mv_unfold.specs.Whole.{HasGoodNets, HasShortNames, whole_faults};

/// A root with instances has no fault exactly where no two of its nets have one name, each is driven once, each reset table is that
/// of a latch of its model, the only one of this latch, and no limit is passed.
pub fn whole_laws()
    ensures good { (root : FileModel) (tree : Instances) → whole_faults root tree ≡ []
        → HasGoodNets root tree }
    ensures short { (root : FileModel) (tree : Instances) → whole_faults root tree ≡ []
        → HasShortNames root tree }
    ensures none { (root : FileModel) (tree : Instances) → HasGoodNets root tree
        → HasShortNames root tree → whole_faults root tree ≡ [] }
{}

/// Where the bindings of a root's instances fit and its nets are good, the root and the instances are one model. Its nets are those
/// of the whole, each of them is driven once, each reset table has its own latch, and it passes no limit where the whole passes
/// none. Of a model without instances it holds the other way round: its own nets are those of the whole.
pub fn model_laws()
    ensures whole { (d : Design) (root : FileModel) (tree : Instances)
        → Unfolds d root.instances tree → AreBound root tree → HasGoodNets root tree
        → IsWhole root tree }
    ensures driven { (d : Design) (root : FileModel) (tree : Instances)
        → Unfolds d root.instances tree → AreBound root tree → HasGoodNets root tree
        → IsDrivenOnce (unfolded root tree) }
    ensures resets { (d : Design) (root : FileModel) (tree : Instances)
        → Unfolds d root.instances tree → All (λ p. IsLawful p.model) (places root tree)
        → AreBound root tree → HasGoodNets root tree → HasResetsOfLatches (unfolded root tree) }
    ensures nets { (d : Design) (root : FileModel) (tree : Instances)
        → Unfolds d root.instances tree → AreBound root tree → HasGoodNets root tree
        → (net : List ℕ)
        → among net (homes (places root tree)) ≡ among net (nets_of (unfolded root tree)) }
    ensures limits { (d : Design) (root : FileModel) (tree : Instances)
        → Unfolds d root.instances tree → AreBound root tree → HasGoodNets root tree
        → HasShortNames root tree → IsWithinLimits (unfolded root tree) }
    ensures alone { (m : FileModel) → m.instances ≡ [] → IsDrivenOnce m → HasResetsOfLatches m
        → HasGoodNets m NoMore }
{}

/// A sound design whose root is the first model of its name, and which is within the limits, has no fault but want of memory; and a
/// design has one tree of instances at most.
pub fn sound_laws()
    ensures none { (d : Design) → IsRootNamed d → (s : IsSound d) → IsWithinDesignLimits d s.tree
        → (f : FlatFault) → IsFault d f
        → (f ≡ FlatFault.Memory → ⊥) → ⊥ }
    ensures one { (d : Design) (a b : IsSound d) → a.tree ≡ b.tree }
{}
