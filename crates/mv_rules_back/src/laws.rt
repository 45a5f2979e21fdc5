ghost use Rattle.std.specs.Prelude.{◌+◌, ◌≤◌, Bool, Option, IfSome, List, length, map, All};
ghost use Rattle.mv_base.specs.declared.limits.TheConstants.{MAX_FLAT_NAME_BYTES};
ghost use Rattle.mv_lex.specs.Lines.{lines_of};
ghost use Rattle.mv_entry.specs.declared.rule.Rule.{Rule};
ghost use Rattle.mv_entry.specs.Entries.{Entry, Applied, rules_of, print};
ghost use Rattle.mv_net.specs.declared.parts.FlatNet.{FlatNet};
ghost use Rattle.mv_net.specs.declared.parts.NetParts.{NetParts};
ghost use Rattle.mv_net.specs.Formed.{WellFormed};
ghost use Rattle.mv_rules.specs.Applies.{Applies};
ghost use Rattle.mv_rules.specs.Replaying.{Replays};
ghost use Rattle.mv_step.specs.declared.step.Step.{Step};
ghost use Rattle.mv_step.specs.Certificates.{steps_of};
ghost use Rattle.mv_step.specs.Printed.{Lists};
ghost use Rattle.mv_entries_back.specs.Printable.{Printable};
ghost use Rattle.mv_rules_back.specs.Names.{HasWordNames};
ghost use Rattle.mv_rules_back.specs.Notes.{notes_of, IsPrintableNote};

/// The names of nets are no longer than a word may be where they are within the limit of a design's names, but for the full stop
/// of a reset net, and stay so under each rule that applies, and under rules that apply in turn.
pub fn name_laws()
    ensures short { (nets : List (Option FlatNet))
        → All (λ (o : Option FlatNet). IfSome o
        (λ (f : FlatNet). length f.name ≤ MAX_FLAT_NAME_BYTES + 1)) nets → HasWordNames nets }
    ensures kept { (free : Bool) (rule : Rule) (old new : NetParts) → HasWordNames old.nets
        → Applies free rule old new → HasWordNames new.nets }
    ensures replayed { (free : Bool) (rules : List Rule) (old new : NetParts)
        → HasWordNames old.nets → Replays free rules old new
        → HasWordNames new.nets }
{}

/// A rule that applies can be printed, and so can rules that apply in turn, with notes between them that can be printed.
pub fn rule_laws()
    ensures one { (free : Bool) (rule : Rule) (old new : NetParts) → WellFormed old
        → HasWordNames old.nets → Applies free rule old new
        → Printable (Applied rule) }
    ensures all { (free : Bool) (es : List Entry) (old new : NetParts) → WellFormed old
        → HasWordNames old.nets
        → All IsPrintableNote (notes_of es) → Replays free (rules_of es) old new
        → All Printable es }
{}

/// The text of entries is read back as a certificate of the rules among them, which apply where these do and leave the same
/// network.
pub fn replay_laws()
    ensures lists { (es : List Entry) → All Printable es
        → Lists (lines_of (print es)) (rules_of es) }
    ensures replays { (free : Bool) (es : List Entry) (old new : NetParts) → All Printable es
        → Replays free (rules_of es) old new
        → Replays free (map (λ (s : Step). s.rule) (steps_of (lines_of (print es)))) old new }
{}
