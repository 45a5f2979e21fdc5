ghost use Rattle.std.specs.Prelude.{◌≤◌};
ghost use Rattle.mv_cover.specs.Covers.{literal_count};
ghost use Rattle.mv_cover.specs.declared.cover.Cover.{Cover};
ghost use Rattle.mv_meaning.specs.Narrowing.{ReadsWithin};
ghost use Rattle.mv_tight.specs.Tight.{IsGrown};

/// A cover that is grown from another one reads no net besides and has no more literals.
pub fn grown_laws()
    ensures reads { (old new : Cover) → IsGrown old new → ReadsWithin old new }
    ensures literals { (old new : Cover) → IsGrown old new
        → literal_count new.lines ≤ literal_count old.lines }
{}
