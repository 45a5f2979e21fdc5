ghost use Rattle.std.specs.Prelude.{◌≡◌, ℕ, List, ◌∷◌, ◌&&◌, ◌==◌, not, nat_lt, length, codes, Bool, Some, Ok, IsTrue, All};
ghost use Rattle.std.specs.List.{list_any};
ghost use Rattle.mv_base.specs.Names.{is_value_name, place_of};
ghost use Rattle.mv_base.specs.Set.{has};
ghost use Rattle.mv_lex.specs.Words.{opens};
ghost use Rattle.mv_word.specs.Entries.{word_set};
ghost use Rattle.mv_word.specs.Says.{Says, IsItem, in_brackets, items_in, item_has};

/// What words say, value by value: `-` says all values, a lawful name of a value says this value, `!` in front of a word
/// turns it to the values that it lacks, and a list in brackets says the values of its items, each of which is a value's
/// name or a range from a first to a last value in declared order.
pub fn entry_laws()
    ensures all { (values : List (List ℕ))
        → Says values (codes "-") (λ v. nat_lt v (length values)) }
    ensures name { (values : List (List ℕ)) (w : List ℕ) (at : ℕ) → IsTrue (is_value_name w)
        → place_of w values ≡ Some at → Says values w (λ v. v == at) }
    ensures lacks { (values : List (List ℕ)) (w : List ℕ) (p : ℕ → Bool) → Says values w p
        → Says values (33 ∷ w) (λ v. nat_lt v (length values) && not (p v)) }
    ensures list { (values : List (List ℕ)) (b : ℕ) (inside : List ℕ) (s : ℕ) → IsTrue (opens b)
        → word_set values (in_brackets b inside) ≡ Ok s → (v : ℕ)
        → has s v ≡ list_any (item_has values v) (items_in inside) }
    ensures items { (values : List (List ℕ)) (b : ℕ) (inside : List ℕ) (s : ℕ) → IsTrue (opens b)
        → word_set values (in_brackets b inside) ≡ Ok s
        → All (IsItem values) (items_in inside) }
{}
