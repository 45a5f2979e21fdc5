ghost use Rattle.std.specs.Prelude.{◌≡◌, ◌<◌, ℕ, true, Option, List, All};
ghost use Rattle.mv_base.specs.declared.number.NetId.{NetId};
ghost use Rattle.mv_cover.specs.Literal.{Lit};
ghost use Rattle.mv_cover.specs.Cubes.{IsCube};
ghost use Rattle.mv_cover.specs.Lines.{lines_differ};
ghost use Rattle.mv_cover.specs.declared.line.Line.{Line};
ghost use Rattle.mv_net.specs.declared.parts.FlatNet.{FlatNet};
ghost use Rattle.mv_net.specs.declared.parts.NetParts.{NetParts};
ghost use Rattle.mv_net.specs.Formed.{WellFormed};
ghost use Rattle.mv_divide.specs.Tables.{IsDivided, IsUndivided};
ghost use Rattle.mv_saving.specs.Saving.{AreCubes, literals};
ghost use Rattle.mv_gains.specs.Gains.{IsTableSaving, LeavesLess};
ghost use Rattle.mv_gains.specs.Candidates.{IsCubeCandidate, IsDivisorFor, IsKernelCandidate};

/// Each candidate of a well-formed network is a divisor of it. The cubes of a divisor are distinct, and have some literals.
pub fn candidate_laws()
    ensures kernels { (net : NetParts) (d : List (List Lit)) → WellFormed net
        → IsKernelCandidate net.nets d
        → IsDivisorFor net.nets d }
    ensures cubes { (net : NetParts) (d : List (List Lit)) → WellFormed net
        → IsCubeCandidate net.nets d
        → IsDivisorFor net.nets d }
    ensures divisors { (nets : List (Option FlatNet)) (d : List (List Lit)) → IsDivisorFor nets d
        → AreCubes d × (0 < literals d) }
{}

/// A divided table has fewer literals by what its division saves, and one that no quotient divides saves nothing. What a
/// table saves is one number. The lines of the table are distinct, and their literals are cubes.
pub fn table_law()
    ensures divided { (lines new : List Line) (divisor : List (List Lit)) (n : NetId)
        → lines_differ lines ≡ true → All (λ (l : Line). IsCube l.cube) lines → AreCubes divisor
        → 0 < literals divisor → IsDivided lines divisor n new → LeavesLess lines divisor new }
    ensures undivided { (lines : List Line) (divisor : List (List Lit)) → IsUndivided lines divisor
        → IsTableSaving lines divisor 0 }
    ensures once { (lines : List Line) (divisor : List (List Lit)) (a b : ℕ)
        → lines_differ lines ≡ true
        → All (λ (l : Line). IsCube l.cube) lines → AreCubes divisor
        → IsTableSaving lines divisor a → IsTableSaving lines divisor b → a ≡ b }
{}
