ghost use Rattle.std.specs.Prelude.{◌≡◌, true, All};
ghost use Rattle.mv_base.specs.Meaning.{SameMeaning};
ghost use Rattle.mv_base.specs.Names.{names_differ};
ghost use Rattle.mv_design.specs.declared.design.Design.{Design};
ghost use Rattle.mv_design.specs.declared.design.FileModel.{FileModel};
ghost use Rattle.mv_design.specs.Meaning.{of_model};
ghost use Rattle.mv_design.specs.Proper.{IsLawful};
ghost use Rattle.mv_tree.specs.Tree.{Instances, Unfolds};
ghost use Rattle.mv_tree.specs.Places.{homes, places};
ghost use Rattle.mv_tree.specs.Unfolded.{unfolded};
ghost use Rattle.mv_tree.specs.Meaning.{of_tree};
ghost use Rattle.mv_tree.specs.Bound.{AreBound, FollowsGrammar, IsWhole};

/// A root with its instances means the same as the one model over all nets that they are, where the tree is that of the root's
/// commands, the bindings fit, no two nets of the whole have one name, each is a net of that model, each latch and reset table
/// keeps its own, no formal is bound twice, and each reset table has one output.
#[tactic(auto, using(crate::proofs::Same::same_meaning))]
pub fn same_meaning()
    ensures { (d : Design) (root : FileModel) (tree : Instances) → Unfolds d root.instances tree
        → IsWhole root tree
        → All FollowsGrammar (places root tree)
        → SameMeaning (of_model (unfolded root tree)) (of_tree root tree) }
{}

/// Where each model of a design is as the grammar has models, so are those of the instances of a root, and their commands follow
/// the grammar; and the one model over all nets is such a model, where the bindings fit and no two nets of the whole have one name.
pub fn lawful()
    ensures places { (d : Design) (root : FileModel) (tree : Instances)
        → Unfolds d root.instances tree → All IsLawful d.models → IsLawful root
        → All (λ p. IsLawful p.model) (places root tree) }
    ensures grammar { (d : Design) (root : FileModel) (tree : Instances)
        → Unfolds d root.instances tree → All (λ p. IsLawful p.model) (places root tree)
        → All FollowsGrammar (places root tree) }
    ensures whole { (d : Design) (root : FileModel) (tree : Instances)
        → Unfolds d root.instances tree → AreBound root tree
        → names_differ (homes (places root tree)) ≡ true
        → All (λ p. IsLawful p.model) (places root tree) → IsLawful (unfolded root tree) }
{}
