ghost use Rattle.std.specs.Prelude.{◌≡◌, ◌↔◌, ℕ, List, None, IsTrue};
ghost use Rattle.mv_lex.specs.Lines.{lex_fault, is_within, is_clean};

/// A file has no fault exactly where each of its bytes may stand where it does, each bracket is closed, and its size and
/// its words are within the limits.
#[tactic(auto, using(crate::proofs::Facts::no_fault_is_clean))]
pub fn fault_laws()
    ensures { (limit : ℕ) (bytes : List ℕ)
        → (lex_fault limit bytes ≡ None) ↔ (IsTrue (is_within limit bytes)
        × IsTrue (is_clean bytes)) }
{}
