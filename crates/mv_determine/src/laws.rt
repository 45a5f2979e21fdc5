ghost use Rattle.std.specs.Prelude.{◌≡◌, ◌≤◌, ℕ, List, true};
ghost use Rattle.mv_base.specs.declared.limits.TheConstants.{MAX_VALUES};
ghost use Rattle.mv_composite.specs.Inside.{IsCoverOver};
ghost use Rattle.mv_cover.specs.Covering.{IsPoint};
ghost use Rattle.mv_cover.specs.Covers.{allowed, cover_reads};
ghost use Rattle.mv_cover.specs.Plain.{IsPlainlyDeterministic};
ghost use Rattle.mv_cover.specs.declared.cover.Cover.{Cover};
ghost use Rattle.mv_determine.specs.Determined.{determined_of};

/// A table that is made deterministic is so, and is a cover over the same counts. At each point it allows only what it allowed, and
/// some value where it allowed one. It reads no net besides.
pub fn determined_laws()
    ensures plain { (counts : List ℕ) (values : ℕ) (c : Cover) → IsCoverOver counts values c
        → IsPlainlyDeterministic (determined_of counts c) }
    ensures over { (counts : List ℕ) (values : ℕ) (c : Cover) → values ≤ MAX_VALUES
        → IsCoverOver counts values c
        → IsCoverOver counts values (determined_of counts c) }
    ensures within { (counts : List ℕ) (values : ℕ) (c : Cover) → values ≤ MAX_VALUES
        → IsCoverOver counts values c
        → (at : ℕ → ℕ) (v : ℕ) → IsPoint counts at → allowed (determined_of counts c) at v ≡ true
        → allowed c at v ≡ true }
    ensures keeps { (counts : List ℕ) (values : ℕ) (c : Cover) → values ≤ MAX_VALUES
        → IsCoverOver counts values c
        → (at : ℕ → ℕ) (v : ℕ) → IsPoint counts at → allowed c at v ≡ true
        → (w : ℕ) × (allowed (determined_of counts c) at w ≡ true) }
    ensures reads { (counts : List ℕ) (c : Cover) (n : ℕ)
        → cover_reads (determined_of counts c) n ≡ true
        → cover_reads c n ≡ true }
{}
