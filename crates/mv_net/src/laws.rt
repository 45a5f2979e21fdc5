ghost use Rattle.std.specs.Prelude.{Bool, false};
ghost use Rattle.mv_base.specs.Meaning.{Refines};
ghost use Rattle.mv_net.specs.declared.parts.NetParts.{NetParts};
ghost use Rattle.mv_net.specs.Allowed.{of_net};

/// That one network may take the place of another is reflexive and transitive, with and without leave to do as one likes
/// where the old one allows nothing: each may take its own place, and what may take the place of a second, which may take
/// the place of a third, may take the place of the third. So many small changes, each of which may be made, make one that
/// may be made. What may take a place without that leave may take it with it.
pub fn refinement_laws()
    ensures itself { (free : Bool) (a : NetParts) → Refines free (of_net a) (of_net a) }
    ensures steps { (free : Bool) (a b c : NetParts) → Refines free (of_net c) (of_net b)
        → Refines free (of_net b) (of_net a) → Refines free (of_net c) (of_net a) }
    ensures free { (free : Bool) (a b : NetParts) → Refines false (of_net b) (of_net a)
        → Refines free (of_net b) (of_net a) }
{}
