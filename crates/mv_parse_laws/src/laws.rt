ghost use Rattle.std.specs.Prelude.{◌≡◌, ℕ, true, List};
ghost use Rattle.mv_lex.specs.declared.lines.LexLine.{LexLine};
ghost use Rattle.mv_lex.specs.Lines.{lines_of};
ghost use Rattle.mv_design.specs.declared.design.Design.{Design};
ghost use Rattle.mv_design.specs.Proper.{numbers_ascend, IsProper};
ghost use Rattle.mv_parse.specs.Grammar.{IsDesign, AreWithinLimits};
ghost use Rattle.mv_parse_laws.specs.Lines.{numbers_of};

/// The numbers of a file's lines ascend.
pub fn lines_ascend()
    ensures { (bytes : List ℕ) → numbers_ascend (numbers_of (lines_of bytes)) ≡ true }
{}

/// A design that the grammar accepts, within the limits, has its root among its models, no two of which have one name. Of each
/// model the names are lawful and different where they have to be, the declared nets have values, tables have some outputs and
/// reset tables one, their entries fit their columns, the input of each latch has as many values as its output, and no instance
/// binds a formal twice. Where the numbers of the lines ascend the tables, latches, reset tables and instances of each model
/// stand by ascending line, each kind for itself, and no two of them have one line, unless a reset table has that of its own
/// latch.
pub fn designs_are_proper()
    ensures { (lines : List LexLine) (d : Design) → numbers_ascend (numbers_of lines) ≡ true
        → IsDesign lines d → AreWithinLimits lines → IsProper d }
{}
