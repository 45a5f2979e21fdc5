ghost use Rattle.std.specs.Prelude.{◌≡◌};
ghost use Rattle.mv_fault.specs.declared.flat.FlatFault.{FlatFault};
ghost use Rattle.mv_fault.specs.declared.flat.FlatFault.TheVariants.{Memory};
ghost use Rattle.mv_unfold.specs.Sound.{IsSound, IsWithinDesignLimits, model_of};
ghost use Rattle.mv_design.specs.declared.design.Design.{Design};
ghost use Rattle.mv_design.specs.Proper.{IsProper};
ghost use Rattle.mv_net.specs.declared.parts.NetParts.{NetParts};
ghost use Rattle.mv_flat.specs.Flat.{HasSmallNetwork, IsFlat, IsRefusedDesign};

/// A design has at most one network.
pub fn at_most_one_network()
    ensures { (design : Design) (one other : NetParts) → IsProper design → IsFlat one design
        → IsFlat other design → one ≡ other }
{}

/// A design that is refused, but for want of memory, is no sound one whose instances, nets and network are within the limits.
pub fn refused_rightly()
    ensures { (d : Design) (f : FlatFault) → IsProper d → IsRefusedDesign d f → (f ≡ Memory → ⊥)
        → (s : IsSound d) → IsWithinDesignLimits d s.tree → HasSmallNetwork (model_of d s) → ⊥ }
{}
