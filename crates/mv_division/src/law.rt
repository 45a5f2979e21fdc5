ghost use Rattle.std.specs.Prelude.{◌≡◌, ◌+◌, ◌<◌, ◌≤◌, ℕ, true, false, Option, Some, List, length, All, Contains};
ghost use Rattle.mv_base.specs.Names.{is_net_name};
ghost use Rattle.mv_base.specs.declared.limits.TheConstants.{MAX_WORD_BYTES};
ghost use Rattle.mv_base.specs.declared.number.NetId.{NetId};
ghost use Rattle.mv_cover.specs.Literal.{Lit};
ghost use Rattle.mv_cover.specs.Covers.{cover_reads, literal_count};
ghost use Rattle.mv_cover.specs.declared.line.Line.{Line};
ghost use Rattle.mv_cover.specs.declared.cover.Cover.{Cover};
ghost use Rattle.mv_divide.specs.Grouped.{AreBelow};
ghost use Rattle.mv_division.specs.Divided.{HasLines, IsDivision, divide_rule, divided_cover};
ghost use Rattle.mv_division.specs.Divisors.{HasDivisor, IsDivisorOver, add_rule, divisor_cover, with_divisor};
ghost use Rattle.mv_meaning.specs.Rewriting.{with_net_table};
ghost use Rattle.mv_net.specs.declared.parts.FlatNet.{FlatNet};
ghost use Rattle.mv_net.specs.declared.parts.NetParts.{NetParts};
ghost use Rattle.mv_net.specs.Formed.{IsCover, IsLiteral, WellFormed};
ghost use Rattle.mv_net.specs.Fresh.{IsFreshName};
ghost use Rattle.mv_net.specs.Nets.{literals_in, slot, table_in, values_in};
ghost use Rattle.mv_pass.specs.Taking.{CanApply};
ghost use Rattle.mv_rules.specs.Applies.{Applies};
ghost use Rattle.mv_plans.specs.Checks.{HasRoom, IsNewName};
ghost use Rattle.mv_saving.specs.Saving.{AreCubes, literals};

/// The rule that adds a net for a divisor applies, and what it leaves: the nets that were there, and behind them that net,
/// which has a table over them. A fresh name is a new one. Literals that stand together in a line of a table may stand in
/// other tables.
pub fn add_law()
    ensures fresh { (nets : List (Option FlatNet)) (skip : ℕ) (name : List ℕ)
        → IsFreshName nets skip name → is_net_name name ≡ true → length name ≤ MAX_WORD_BYTES
        → IsNewName nets name }
    ensures stands { (net : NetParts) (n : ℕ) (c : Cover) (line : Line) (cube : List Lit)
        → WellFormed net → table_in (slot net.nets n) ≡ Some c → Contains c.lines line
        → All (Contains line.cube) cube → All (IsLiteral net.nets) cube }
    ensures covers { (nets : List (Option FlatNet)) (divisor : List (List Lit))
        → IsDivisorOver nets divisor → IsCover nets 2 (divisor_cover divisor) }
    ensures applies { (net : NetParts) (name : List ℕ) (divisor : List (List Lit)) → WellFormed net
        → IsDivisorOver net.nets divisor → IsNewName net.nets name → HasRoom net.nets
        → CanApply false (add_rule net.nets name divisor) net }
    ensures leaves { (net new : NetParts) (name : List ℕ) (divisor : List (List Lit))
        → WellFormed net → IsDivisorOver net.nets divisor
        → Applies false (add_rule net.nets name divisor) net new
        → new ≡ with_divisor net name divisor }
    ensures comes { (net : NetParts) (name : List ℕ) (divisor : List (List Lit))
        → HasDivisor (with_divisor net name divisor).nets (length net.nets) name divisor }
    ensures stays { (net : NetParts) (name : List ℕ) (divisor : List (List Lit)) (n : ℕ)
        → n < length net.nets → slot (with_divisor net name divisor).nets n ≡ slot net.nets n }
    ensures behind { (net : NetParts) (n m : ℕ) (c : Cover) → WellFormed net
        → table_in (slot net.nets n) ≡ Some c → cover_reads c m ≡ true → m < length net.nets }
{}

/// The rule that divides a table by a net that stands for a divisor applies, and what it leaves: that net has the divided
/// lines, with the default that it had or with one that the rule adds, and each other net is as it was.
pub fn divide_law()
    ensures below { (c : Cover) (d : NetId) → ((m : ℕ) → cover_reads c m ≡ true → m < d.0)
        → All (λ (l : Line). AreBelow d l.cube) c.lines }
    ensures covers { (net : NetParts) (n d : NetId) (by : List ℕ) (divisor : List (List Lit))
        (old : Cover) (ls : List Line) → WellFormed net → IsDivision net.nets n d by divisor old ls
        → IsCover net.nets (values_in (slot net.nets n.0)) (divided_cover old ls) }
    ensures applies { (net : NetParts) (n d : NetId) (by : List ℕ) (divisor : List (List Lit))
        (old : Cover) (ls : List Line) → WellFormed net → IsDivision net.nets n d by divisor old ls
        → CanApply false (divide_rule net.nets n.0 by old ls) net }
    ensures leaves { (net new : NetParts) (n d : NetId) (by : List ℕ) (divisor : List (List Lit))
        (old : Cover) (ls : List Line) → WellFormed net → IsDivision net.nets n d by divisor old ls
        → Applies false (divide_rule net.nets n.0 by old ls) net new → HasLines net n.0 old ls new }
    ensures others { (nets : List (Option FlatNet)) (n m : ℕ) (c : Cover) → (m ≡ n → ⊥)
        → slot (with_net_table nets n c) m ≡ slot nets m }
{}

/// What the two rules do to the literals of a network: those of the divisor come, and those of the divided lines take the
/// place of those of the old lines. A divisor's cubes are distinct, and it has literals.
pub fn literals_law()
    ensures cubes { (nets : List (Option FlatNet)) (divisor : List (List Lit))
        → IsDivisorOver nets divisor → AreCubes divisor }
    ensures some { (nets : List (Option FlatNet)) (divisor : List (List Lit))
        → IsDivisorOver nets divisor → 0 < literals divisor }
    ensures added { (net : NetParts) (name : List ℕ) (divisor : List (List Lit))
        → literals_in (with_divisor net name divisor).nets
        ≡ literals_in net.nets + literals divisor }
    ensures divided { (net new : NetParts) (n : ℕ) (old : Cover) (lines : List Line)
        → table_in (slot net.nets n) ≡ Some old → HasLines net n old lines new
        → literals_in new.nets + literal_count old.lines
        ≡ literals_in net.nets + literal_count lines }
{}
