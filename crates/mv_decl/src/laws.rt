ghost use Rattle.std.specs.Prelude.{◌≡◌, ℕ, ◌<◌, List, [], ◌∷◌, ◌++◌, false, length, codes, IsTrue};
ghost use Rattle.mv_base.specs.Names.{among, is_net_name};
ghost use Rattle.mv_design.specs.declared.design.Decl.{Decl};
ghost use Rattle.mv_decl.specs.Line.{number_said, numbers_below, named_values, count_faults, value_name_faults, length_faults, redeclared_faults};
ghost use Rattle.mv_decl.specs.Line.{nets_said, values_said, decl_faults};
ghost use Rattle.mv_design.specs.Values.{declared_of};
ghost use Rattle.mv_decl.specs.Plain.{IsPlainLine, SayTwoNames};

use mv_fault::ParseFault;

/// What the words behind `.mv` say, after the description of BLIF-MV by Kukimoto. Without commas they are the names of nets,
/// the count, and names of values: the nets are those named, their values are those named, or the numbers below the count
/// where none is, and the faults are those of the count, of the values, and of nets declared before. A comma between the
/// names of two nets, of which the second has more than digits, may be left out, be it a word of its own or a part of one.
/// A comma in front of a line is its only fault, a name that is lacking; and behind a name and a comma the line begins anew,
/// so that a second comma is such a fault, and a word of digits is a name.
pub fn line_laws()
    ensures nets { (words nets : List (List ℕ)) (count : List ℕ) (values : List (List ℕ))
        → IsPlainLine words nets count values → nets_said words ≡ nets }
    ensures names { (words nets : List (List ℕ)) (count : List ℕ) (values : List (List ℕ))
        → IsPlainLine words nets count values
        → 0 < length values → values_said words ≡ values }
    ensures numbers { (words nets : List (List ℕ)) (count : List ℕ)
        → IsPlainLine words nets count []
        → values_said words ≡ numbers_below (number_said count) }
    ensures faults { (words nets : List (List ℕ)) (count : List ℕ) (values : List (List ℕ))
        → IsPlainLine words nets count values
        → (n : ℕ) (word : List ℕ) (ds : List Decl) → decl_faults n word ds words
        ≡ count_faults n count ++ value_name_faults n [] values
        ++ length_faults n (number_said count) values
        ++ redeclared_faults n ds (named_values (number_said count) values) nets }
    ensures comma { SayTwoNames (λ w x. w ∷ codes "," ∷ x ∷ []) }
    ensures joined { SayTwoNames (λ w x. (w ++ codes "," ++ x) ∷ []) }
    ensures at_end { SayTwoNames (λ w x. (w ++ codes ",") ∷ x ∷ []) }
    ensures in_front { SayTwoNames (λ w x. w ∷ (codes "," ++ x) ∷ []) }
    ensures lacks { (n : ℕ) (word : List ℕ) (ds : List Decl) (words : List (List ℕ))
        → decl_faults n word ds (codes "," ∷ words) ≡ ParseFault.Missing n word ∷ [] }
    ensures anew_nets { (w : List ℕ) (words : List (List ℕ)) → IsTrue (is_net_name w)
        → nets_said (w ∷ codes "," ∷ words) ≡ w ∷ nets_said words }
    ensures anew_values { (w : List ℕ) (words : List (List ℕ)) → IsTrue (is_net_name w)
        → values_said (w ∷ codes "," ∷ words) ≡ values_said words }
    ensures anew_faults { (n : ℕ) (word : List ℕ) (ds : List Decl) (w : List ℕ)
        (words : List (List ℕ)) → IsTrue (is_net_name w)
        → among w (declared_of ds) ≡ false
        → decl_faults n word ds (w ∷ codes "," ∷ words) ≡ decl_faults n word ds words }
{}
