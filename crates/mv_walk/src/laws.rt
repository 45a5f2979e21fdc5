//! What the faults of a walk say of a design.
ghost use Rattle.std.specs.Prelude.{◌≡◌, List, []};
ghost use Rattle.mv_design.specs.declared.design.Design.{Design};
ghost use Rattle.mv_design.specs.declared.design.Instance.{Instance};
ghost use Rattle.mv_tree.specs.Tree.{Instances, Unfolds};
ghost use Rattle.mv_walk.specs.Walk.{walk_faults, HasTree};
ghost use Rattle.mv_walk.specs.Trees.{HasSomeTree, IsRootNamed};

/// A design has a tree of instances within the limits exactly where no fault is told, and no second one. That no fault is told
/// where it has one is said of a design whose root is the first model of its name: a second model of one name could be its root,
/// hold an instance of the first, and be no instance of itself.
pub fn walk_laws()
    ensures tree { (d : Design) → walk_faults d ≡ [] → HasSomeTree d }
    ensures none { (d : Design) (tree : Instances) → IsRootNamed d → HasTree d tree
        → walk_faults d ≡ [] }
    ensures one { (d : Design) (instances : List Instance) (a b : Instances) → Unfolds d instances a
        → Unfolds d instances b → a ≡ b }
{}
