ghost use Rattle.std.specs.Prelude.{◌≡◌, ◌⊎◌, ℕ, List};
ghost use Rattle.mv_script.specs.declared.fault.TextFault.{TextFault};
ghost use Rattle.mv_script.specs.Faults.{IsFirstFault};
ghost use Rattle.mv_script.specs.Grammar.{IsScript};
ghost use Rattle.mv_script.specs.Scripts.{Items as ScriptItems};

/// A text is a script of some items or has a first fault, not both, and has one of them alone.
pub fn script_laws()
    ensures judged { (text : List ℕ)
        → ((items : ScriptItems) × IsScript text items) ⊎ ((f : TextFault) × IsFirstFault text f) }
    ensures apart { (text : List ℕ) (f : TextFault) (items : ScriptItems) → IsFirstFault text f
        → IsScript text items → ⊥ }
    ensures one_script { (text : List ℕ) (a b : ScriptItems) → IsScript text a → IsScript text b
        → a ≡ b }
    ensures one_fault { (text : List ℕ) (f g : TextFault) → IsFirstFault text f
        → IsFirstFault text g → f ≡ g }
{}
