ghost use Rattle.std.specs.Prelude.{ℕ, Bool, List};
ghost use Rattle.mv_base.specs.Meaning.{Refines};
ghost use Rattle.mv_net.specs.declared.parts.NetParts.{NetParts};
ghost use Rattle.mv_net.specs.Formed.{WellFormed};
ghost use Rattle.mv_net.specs.Allowed.{Allows, of_net};
ghost use Rattle.mv_net.specs.Nets.{interface_of};
ghost use Rattle.mv_verify.specs.declared.answer.Point.{Point};
ghost use Rattle.mv_verify.specs.declared.answer.Choice.{Choice};
ghost use Rattle.mv_verify.specs.Answers.{AreValues, IsExtra, IsLost};

/// Where there is evidence, the one network doesn't refine the other: so each answer is given exactly where it is right. And
/// a point and a choice that a well-formed network allows are values of its inputs, outputs and latches.
pub fn answer_laws()
    ensures extra { (free : Bool) (b a : NetParts) (p : Point) (c : Choice)
        → IsExtra free (of_net b) (of_net a) p c → Refines free (of_net b) (of_net a) → ⊥ }
    ensures lost { (free : Bool) (b a : NetParts) (p : Point)
        → IsLost (of_net b) (of_net a) p → Refines free (of_net b) (of_net a) → ⊥ }
    ensures values { (net : NetParts) (i s o n r : List ℕ) → WellFormed net
        → Allows net i s o n r → AreValues (interface_of net) i s o n r }
{}
