ghost use Rattle.std.specs.Prelude.{◌≡◌, ℕ, Bool, List};
ghost use Rattle.mv_entry.specs.declared.fault.RuleFault.{RuleFault};
ghost use Rattle.mv_net.specs.declared.parts.NetParts.{NetParts};
ghost use Rattle.mv_net.specs.Formed.{WellFormed};
ghost use Rattle.mv_rules.specs.Replaying.{Replays};
ghost use Rattle.mv_step.specs.declared.step.Step.{Step};
ghost use Rattle.mv_cert.specs.Certificates.{Certifies};
ghost use Rattle.mv_cert.specs.Replay.{FailsAt, rules_in};

/// Steps that all apply in turn don't stop at one that doesn't.
pub fn never_both_replays()
    ensures { (free : Bool) (steps : List Step) (old one other : NetParts) (line : ℕ)
        (fault : RuleFault) → WellFormed old
        → Replays free (rules_in steps) old one → FailsAt free steps old other line fault → ⊥ }
{}

/// A certificate leads from a network to at most one.
#[tactic(auto, using(crate::proofs::Replayed::one_outcome))]
pub fn at_most_one_outcome()
    ensures { (free : Bool) (bytes : List ℕ) (first one other : NetParts) → WellFormed first
        → Certifies free bytes first one → Certifies free bytes first other → one ≡ other }
{}
