ghost use Rattle.std.specs.Prelude.{◌≡◌, ◌+◌, true, List, All};
ghost use Rattle.std.specs.List.{IsDistinct};
ghost use Rattle.mv_cover.specs.Literal.{Lit};
ghost use Rattle.mv_cover.specs.Equal.{cube_eq};
ghost use Rattle.mv_cover.specs.Lines.{lines_differ};
ghost use Rattle.mv_cover.specs.declared.line.Line.{Line};
ghost use Rattle.mv_divide.specs.declared.part.Part.{Part};
ghost use Rattle.mv_divide.specs.Tables.{parts_of};
ghost use Rattle.mv_divide.specs.Division.{IsQuotient};
ghost use Rattle.mv_saving.specs.Saving.{AreCubes, IsRest, literals, joined};

/// The literals of a cover are those of the rest and of all joins of the quotient's cubes to those of the divisor.
pub fn saving_law()
    ensures { (cover divisor quotient rest : List (List Lit)) → AreCubes cover → AreCubes divisor
        → IsQuotient cover divisor quotient → IsRest cover divisor quotient rest
        → literals cover ≡ literals rest + joined divisor quotient }
{}

/// In the covers of a table of distinct lines each cube stands once.
pub fn covers_law()
    ensures { (lines : List Line) → lines_differ lines ≡ true
        → All (λ (p : Part). IsDistinct cube_eq p.cover) (parts_of lines) }
{}
