ghost use Rattle.std.specs.Prelude.{◌≡◌, ℕ, true, false, List, [], ◌∷◌, ◌++◌, ◌≤◌, length};
ghost use Rattle.std.specs.List.{list_any};
ghost use Rattle.mv_base.specs.Names.{among};
ghost use Rattle.mv_instances.specs.Binding.{is_equal, before_equal, behind_equal};
ghost use Rattle.mv_instances.specs.Line.{instance_faults, instance_name, instance_said};
ghost use Rattle.mv_design.specs.Proper.{IsFileInstance};

/// A word with `=` is what stands before the first of them, which has none, the `=`, and what stands behind it. Behind the first
/// `=` of a word that has none stands nothing.
pub fn binding_laws()
    ensures cut { (w : List ℕ) → list_any is_equal w ≡ true
        → w ≡ before_equal w ++ 61 ∷ behind_equal w }
    ensures first { (w : List ℕ) → list_any is_equal (before_equal w) ≡ false }
    ensures none { (w : List ℕ) → list_any is_equal w ≡ false → behind_equal w ≡ [] }
{}

/// A line has no fault exactly where its words are a model and an instance at least, the instance that they say has lawful names
/// and binds no formal twice, and no other instance of its model has its name.
pub fn instance_laws()
    ensures enough { (n : ℕ) (word : List ℕ) (known words : List (List ℕ))
        → instance_faults n word known words ≡ [] → 2 ≤ length words }
    ensures lawful { (n : ℕ) (word : List ℕ) (known words : List (List ℕ))
        → instance_faults n word known words ≡ [] → IsFileInstance (instance_said n words) }
    ensures new { (n : ℕ) (word : List ℕ) (known words : List (List ℕ))
        → instance_faults n word known words ≡ [] → among (instance_name words) known ≡ false }
    ensures accepted { (n : ℕ) (word : List ℕ) (known words : List (List ℕ)) → 2 ≤ length words
        → IsFileInstance (instance_said n words)
        → among (instance_name words) known ≡ false → instance_faults n word known words ≡ [] }
{}
