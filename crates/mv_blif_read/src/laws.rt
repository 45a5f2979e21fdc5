ghost use Rattle.std.specs.Prelude.{◌≡◌, ℕ, true, Some, List};
ghost use Rattle.mv_lex.specs.declared.lines.LexLine.{LexLine};
ghost use Rattle.mv_design.specs.Proper.{numbers_ascend};
ghost use Rattle.mv_parse_laws.specs.Lines.{numbers_of};
ghost use Rattle.mv_blif_back.specs.Said.{AreSaid, IsBinary, inits};
ghost use Rattle.mv_chosen.specs.Written.{AreFirstValues};
ghost use Rattle.mv_cover.specs.Plain.{AllowsOne};
ghost use Rattle.mv_cover.specs.declared.cover.Cover.{Cover};
ghost use Rattle.mv_net.specs.Nets.{slot, table_in};
ghost use Rattle.mv_blif_read.specs.declared.network.BlifNetFault.{BlifNetFault};
ghost use Rattle.mv_blif_read.specs.declared.network.FileNetwork.{FileNetwork};
ghost use Rattle.mv_blif_read.specs.Reads.{IsBlifNetOf, SaySoundDesign, IsFaultOf};

/// Lines that are refused, but for want of memory, say no sound design within the limits, where their numbers ascend. So
/// `blif_network_of`, which asks that of them, is Ok exactly where lines say such a design, memory aside.
pub fn one_answer()
    ensures { (lines : List LexLine) (f : BlifNetFault) → numbers_ascend (numbers_of lines) ≡ true
        → IsFaultOf lines f → (f ≡ BlifNetFault.Memory → ⊥) → SaySoundDesign lines → ⊥ }
{}

/// Lines whose numbers ascend say at most one network, and of its latches one thing.
pub fn at_most_one_network()
    ensures { (lines : List LexLine) (one other : FileNetwork)
        → numbers_ascend (numbers_of lines) ≡ true → IsBlifNetOf lines one
        → IsBlifNetOf lines other → one ≡ other }
{}

/// What lines say of the latches of their network can be written with it and read again: a control stands only beside a kind, and
/// is an input that isn't named as none is; and a latch begins with 0 or 1 exactly where it has a reset net.
pub fn latches_are_said()
    ensures { (lines : List LexLine) (b : FileNetwork) → numbers_ascend (numbers_of lines) ≡ true
        → IsBlifNetOf lines b → AreSaid b.net b.net.latches b.latches }
{}

/// Each latch of the network that lines say is always reset to the value that its line says, where this is 0 or 1.
pub fn first_values_are_said()
    ensures { (lines : List LexLine) (b : FileNetwork) → numbers_ascend (numbers_of lines) ≡ true
        → IsBlifNetOf lines b → AreFirstValues b.net (inits b.latches) }
{}

/// The network that lines say can be written as BLIF: no net has more than two values, those that are seen from outside have just
/// the values 0 and 1, and each table is total.
pub fn networks_are_total()
    ensures { (lines : List LexLine) (b : FileNetwork) → numbers_ascend (numbers_of lines) ≡ true
        → IsBlifNetOf lines b → IsBinary b.net }
{}

/// Each table of that network allows one value at most.
pub fn tables_allow_one()
    ensures { (lines : List LexLine) (b : FileNetwork) (n : ℕ) (c : Cover)
        → numbers_ascend (numbers_of lines) ≡ true → IsBlifNetOf lines b
        → table_in (slot b.net.nets n) ≡ Some c → AllowsOne c }
{}
