ghost use Rattle.std.specs.Prelude.{◌≡◌, true, List};
ghost use Rattle.mv_lex.specs.declared.lines.LexLine.{LexLine};
ghost use Rattle.mv_design.specs.Proper.{numbers_ascend};
ghost use Rattle.mv_parse_laws.specs.Lines.{numbers_of};
ghost use Rattle.mv_net.specs.declared.parts.NetParts.{NetParts};
ghost use Rattle.mv_read.specs.declared.network.NetFault.{NetFault};
ghost use Rattle.mv_read.specs.Reads.{IsNetOf, SaySoundDesign, IsFaultOf};

/// Lines that are refused, but for want of memory, say no sound design within the limits, where their numbers ascend. So
/// `network_of`, which asks that of them, is Ok exactly where lines say such a design, memory aside.
pub fn one_answer()
    ensures { (lines : List LexLine) (f : NetFault) → numbers_ascend (numbers_of lines) ≡ true
        → IsFaultOf lines f → (f ≡ NetFault.Memory → ⊥) → SaySoundDesign lines → ⊥ }
{}

/// Lines whose numbers ascend say at most one network.
pub fn at_most_one_network()
    ensures { (lines : List LexLine) (one other : NetParts)
        → numbers_ascend (numbers_of lines) ≡ true → IsNetOf lines one → IsNetOf lines other → one ≡ other }
{}
