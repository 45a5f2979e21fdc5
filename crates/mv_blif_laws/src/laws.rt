ghost use Rattle.std.specs.Prelude.{◌≡◌, true, List};
ghost use Rattle.mv_lex.specs.declared.lines.LexLine.{LexLine};
ghost use Rattle.mv_design.specs.Proper.{numbers_ascend, IsProper};
ghost use Rattle.mv_parse_laws.specs.Lines.{numbers_of};
ghost use Rattle.mv_blif.specs.declared.design.BlifDesign.{BlifDesign};
ghost use Rattle.mv_blif.specs.Grammar.{IsBlif, AreWithinLimits};
ghost use Rattle.mv_blif_laws.specs.Flat.{IsFlat};

/// A design that BLIF's grammar accepts, within the limits, is such as the flattening wants it: its names are lawful and
/// different where they have to be, its tables have one output each, and their rows fit their columns. Where the numbers of the
/// lines ascend its tables, latches and reset tables stand by ascending line, each kind for itself, and no two of them have one
/// line, but that a reset table has that of its own latch.
pub fn blif_designs_are_proper()
    ensures { (lines : List LexLine) (d : BlifDesign) → numbers_ascend (numbers_of lines) ≡ true
        → IsBlif lines d → AreWithinLimits lines → IsProper d.design }
{}

/// A design that BLIF's grammar accepts has one model, which declares nothing and has no instances, and of each of its latches
/// it says one thing besides.
pub fn blif_designs_are_flat()
    ensures { (lines : List LexLine) (d : BlifDesign) → IsBlif lines d → IsFlat d }
{}
