ghost use Rattle.std.specs.Prelude.{◌≡◌, ◌↔◌, ◌+◌, ◌≤◌, ℕ, Option, Some, List, map};
ghost use Rattle.mv_agenda.specs.Near.{IsNear};
ghost use Rattle.mv_composite.specs.declared.inner.Inner.{Inner};
ghost use Rattle.mv_composite.specs.Composite.{spelled, composed};
ghost use Rattle.mv_composite.specs.Wide.{IsTooWide};
ghost use Rattle.mv_cover.specs.declared.cover.Cover.{Cover};
ghost use Rattle.mv_cover.specs.declared.line.Line.{Line};
ghost use Rattle.mv_cover.specs.Complement.{complement_of, IsWide, spelled_of};
ghost use Rattle.mv_entry.specs.declared.fault.RuleFault.{RuleFault};
ghost use Rattle.mv_meaning.specs.Rewriting.{HasOneReader};
ghost use Rattle.mv_net.specs.declared.parts.NetParts.{NetParts};
ghost use Rattle.mv_net.specs.Changes.{with_nets};
ghost use Rattle.mv_net.specs.Formed.{WellFormed};
ghost use Rattle.mv_net.specs.Nets.{slot, values_in, table_in, literals_in, reads_in};
ghost use Rattle.mv_net.specs.Plain.{IsPlainNet, IsPlainBuffer, IsPlainConstant};
ghost use Rattle.mv_net.specs.Total.{IsTotalNet, IsRemovable};
ghost use Rattle.mv_plans.specs.Checks.{IsTabled, IsUnseen, IsUnread, IsRead};
ghost use Rattle.mv_plans.specs.Collapsing.{
  collapsed,
  AreNarrow,
  CanCollapse,
  CollapseRow,
  HasComposites,
  IsInnerOf,
  IsUnshared,
};
ghost use Rattle.mv_plans.specs.Removing.{RemoveRow};
ghost use Rattle.mv_plans.specs.Wiring.{IsBuffer, WireRow};
ghost use Rattle.mv_locality.specs.Local.{KeepsValues, StaysAround};
ghost use Rattle.mv_locality.specs.Same.{SameCounts, StaysAt};

/// What is made of covers depends on the counts of the nets that they read, and on no other.
pub fn count_laws()
    ensures complement { (counts others : List ℕ) (lines : List Line)
        → SameCounts counts others lines
        → complement_of counts lines ≡ complement_of others lines }
    ensures wide { (counts others : List ℕ) (lines : List Line) → SameCounts counts others lines
        → IsWide counts lines → IsWide others lines }
    ensures default { (counts others : List ℕ) (c : Cover) → SameCounts counts others c.lines
        → spelled_of counts c ≡ spelled_of others c }
    ensures spelled { (counts others : List ℕ) (inner : Inner) (reader : Cover)
        → SameCounts counts others reader.lines
        → spelled counts inner reader ≡ spelled others inner reader }
    ensures composed { (counts others : List ℕ) (inner : Inner) (reader : Cover)
        → SameCounts counts others inner.cover.lines → SameCounts counts others reader.lines
        → composed counts inner reader ≡ composed others inner reader }
    ensures too_wide { (counts others : List ℕ) (inner : Inner) (reader : Cover)
        → SameCounts counts others inner.cover.lines → SameCounts counts others reader.lines
        → IsTooWide counts inner reader → IsTooWide others inner reader }
{}

/// A net that is as it was, in a well-formed network in which no held net has another number of values: its table is total, plainly
/// deterministic, a constant or a buffer where it was, and what a composite asks of it is the same.
pub fn table_laws()
    ensures total { (old new : NetParts) (n : ℕ) → WellFormed new → KeepsValues old.nets new.nets
        → slot new.nets n ≡ slot old.nets n → IsTotalNet new.nets n ↔ IsTotalNet old.nets n }
    ensures plain { (old new : NetParts) (n : ℕ) → slot new.nets n ≡ slot old.nets n
        → IsPlainNet new.nets n ↔ IsPlainNet old.nets n }
    ensures constant { (old new : NetParts) (n v : ℕ) → slot new.nets n ≡ slot old.nets n
        → IsPlainConstant new.nets n v ↔ IsPlainConstant old.nets n v }
    ensures copies { (old new : NetParts) (n m : ℕ) → WellFormed new → KeepsValues old.nets new.nets
        → slot new.nets n ≡ slot old.nets n
        → IsPlainBuffer new.nets n m ↔ IsPlainBuffer old.nets n m }
    ensures buffer { (old new : NetParts) (n : ℕ) → WellFormed new → KeepsValues old.nets new.nets
        → slot new.nets n ≡ slot old.nets n → IsBuffer new.nets n ↔ IsBuffer old.nets n }
    ensures named { (old new : NetParts) (name : List ℕ) (n : ℕ) → slot new.nets n ≡ slot old.nets n
        → IsTabled new.nets name n ↔ IsTabled old.nets name n }
    ensures inner { (old new : NetParts) (inner : Inner) → WellFormed new
        → KeepsValues old.nets new.nets
        → slot new.nets inner.net.0 ≡ slot old.nets inner.net.0
        → IsInnerOf new.nets inner ↔ IsInnerOf old.nets inner }
{}

/// Two nets that are as they were, in such a network: the composite of the second's table with the first is the same, and it is too
/// wide where it was.
pub fn composite_laws()
    ensures composed { (old new : NetParts) (inner : Inner) (m : ℕ) (c : Cover) → WellFormed new
        → KeepsValues old.nets new.nets
        → slot new.nets inner.net.0 ≡ slot old.nets inner.net.0 → slot new.nets m ≡ slot old.nets m
        → IsInnerOf old.nets inner → table_in (slot old.nets m) ≡ Some c
        → composed (map values_in new.nets) inner c ≡ composed (map values_in old.nets) inner c }
    ensures too_wide { (old new : NetParts) (inner : Inner) (m : ℕ) (c : Cover) → WellFormed new
        → KeepsValues old.nets new.nets
        → slot new.nets inner.net.0 ≡ slot old.nets inner.net.0 → slot new.nets m ≡ slot old.nets m
        → IsInnerOf old.nets inner → table_in (slot old.nets m) ≡ Some c
        → IsTooWide (map values_in new.nets) inner c ↔ IsTooWide (map values_in old.nets) inner c }
{}

/// Where nothing changes but near one net, nothing changes for a net that isn't near it; and a net for which nothing changes has
/// the readers that it had, whose composites with it are too wide where they were.
pub fn place_laws()
    ensures far { (old new : NetParts) (n : ℕ) → WellFormed new → new ≡ with_nets old new.nets
        → StaysAround old.nets new.nets n
        → (m : ℕ) → (IsNear old.nets n m → ⊥) → StaysAt old new m }
    ensures reads { (old new : NetParts) (n : ℕ) → StaysAt old new n → (k : ℕ)
        → reads_in new.nets k n ≡ reads_in old.nets k n }
    ensures one { (old new : NetParts) (n : ℕ) → StaysAt old new n
        → HasOneReader new.nets n ↔ HasOneReader old.nets n }
    ensures narrow { (old new : NetParts) (inner : Inner) → StaysAt old new inner.net.0
        → IsInnerOf old.nets inner
        → AreNarrow new.nets inner (λ m. reads_in new.nets m inner.net.0)
        ↔ AreNarrow old.nets inner (λ m. reads_in old.nets m inner.net.0) }
{}

/// Each check of a rule that removes such a net, wires it or collapses it holds where it held.
pub fn check_laws()
    ensures unseen { (old new : NetParts) (n : ℕ) → StaysAt old new n
        → IsUnseen new n ↔ IsUnseen old n }
    ensures unread { (old new : NetParts) (n : ℕ) → StaysAt old new n
        → IsUnread new.nets n ↔ IsUnread old.nets n }
    ensures read { (old new : NetParts) (n : ℕ) → StaysAt old new n
        → IsRead new.nets n ↔ IsRead old.nets n }
    ensures unshared { (old new : NetParts) (n : ℕ) → StaysAt old new n
        → IsUnshared new.nets n ↔ IsUnshared old.nets n }
    ensures composites { (old new : NetParts) (n : ℕ) → StaysAt old new n
        → HasComposites new.nets n ↔ HasComposites old.nets n }
    ensures removable { (old new : NetParts) (n : ℕ) → StaysAt old new n
        → IsRemovable new n ↔ IsRemovable old n }
    ensures can_collapse { (old new : NetParts) (n : ℕ) → StaysAt old new n
        → CanCollapse new n ↔ CanCollapse old n }
{}

/// So the first check of such a rule that fails there is the one that failed.
pub fn row_laws()
    ensures remove { (old new : NetParts) (n : ℕ) (f : RuleFault) → StaysAt old new n
        → RemoveRow new n f ↔ RemoveRow old n f }
    ensures wire { (old new : NetParts) (n : ℕ) (f : RuleFault) → StaysAt old new n
        → WireRow new n f ↔ WireRow old n f }
    ensures collapse { (old new : NetParts) (n : ℕ) (f : RuleFault) → StaysAt old new n
        → CollapseRow new n f ↔ CollapseRow old n f }
{}

/// A collapse of such a net changes the number of literals by as many as it did.
pub fn saving_laws()
    ensures change { (old new : NetParts) (inner : Inner) → WellFormed old
        → StaysAt old new inner.net.0 → IsInnerOf old.nets inner
        → literals_in (collapsed new inner).nets + literals_in old.nets
        ≡ literals_in (collapsed old inner).nets + literals_in new.nets }
    ensures saves { (old new : NetParts) (inner : Inner) → WellFormed old
        → StaysAt old new inner.net.0 → IsInnerOf old.nets inner
        → (literals_in (collapsed new inner).nets ≤ literals_in new.nets)
        ↔ (literals_in (collapsed old inner).nets ≤ literals_in old.nets) }
{}
