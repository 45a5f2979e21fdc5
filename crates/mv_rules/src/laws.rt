ghost use Rattle.std.specs.Prelude.{◌≡◌, ◌+◌, ℕ, Bool, true, false, Option, List};
ghost use Rattle.std.specs.List.{list_all, sum_by};
ghost use Rattle.mv_base.specs.declared.number.NetId.{NetId};
ghost use Rattle.mv_base.specs.Meaning.{Refines, SameMeaning};
ghost use Rattle.mv_composite.specs.declared.inner.Inner.{Inner};
ghost use Rattle.mv_entry.specs.declared.rule.Body.{Body};
ghost use Rattle.mv_entry.specs.declared.rule.Rule.{Rule};
ghost use Rattle.mv_entry.specs.declared.rule.Rule.TheVariants.{Collapse, Fill, Narrow};
ghost use Rattle.mv_entry.specs.declared.fault.RuleFault.{RuleFault};
ghost use Rattle.mv_entry.specs.Entries.{Applied, HasVisibleNames};
ghost use Rattle.mv_graph.specs.Nets.{IsAscending};
ghost use Rattle.mv_meaning.specs.Rewriting.{SameWhereAllowed};
ghost use Rattle.mv_net.specs.declared.parts.FlatNet.{FlatNet};
ghost use Rattle.mv_net.specs.declared.parts.NetParts.{NetParts};
ghost use Rattle.mv_net.specs.Allowed.{of_net};
ghost use Rattle.mv_net.specs.Behind.{literals_at};
ghost use Rattle.mv_net.specs.Formed.{WellFormed};
ghost use Rattle.mv_net.specs.Nets.{literals_in, reads_in};
ghost use Rattle.mv_net.specs.Total.{IsTotalNet};
ghost use Rattle.mv_partial.specs.Partial.{ArePartial};
ghost use Rattle.mv_plans.specs.Checks.{IsTabled};
ghost use Rattle.mv_plans.specs.Collapsing.{
  IsInnerOf,
  CanCollapse,
  Collapses,
  FailsCollapse,
  collapsed,
};
ghost use Rattle.mv_plans.specs.Composites.{
  HasCompositeLiterals,
  HasWideComposite,
  composite_count,
};
ghost use Rattle.mv_rules.specs.Applies.{Applies, Fails, LacksNodes, LeavesLiterals, keeps_choices};
ghost use Rattle.mv_rules.specs.Replaying.{Replays};
ghost use Rattle.mv_rules.specs.Staying.{AreTotal, AreBinary};

/// A rule makes at most one network of a network.
#[tactic(auto, using(crate::proofs::OneAnswer::one_network))]
pub fn at_most_one_network()
    ensures { (free : Bool) (rule : Rule) (old one other : NetParts) → WellFormed old
        → Applies free rule old one → Applies free rule old other → one ≡ other }
{}

/// A rule fails with at most one fault.
#[tactic(auto, using(crate::proofs::OneAnswer::one_fault))]
pub fn at_most_one_fault()
    ensures { (free : Bool) (rule : Rule) (old : NetParts) (f g : RuleFault) → WellFormed old
        → Fails free rule old f → Fails free rule old g → f ≡ g }
{}

/// A rule that applies doesn't fail.
#[tactic(auto, using(crate::proofs::OneAnswer::not_both))]
pub fn never_both()
    ensures { (free : Bool) (rule : Rule) (old new : NetParts) (f : RuleFault) → WellFormed old
        → Applies free rule old new → Fails free rule old f → ⊥ }
{}

/// No rule lacks nodes: diagrams aren't built in this version, and no pool of nodes is ever full.
#[tactic(auto, using(crate::proofs::Nodes::nodes_never))]
pub fn nodes_suffice()
    ensures { (budget : ℕ) (rule : Rule) (net : NetParts) → LacksNodes budget rule net → ⊥ }
{}

/// A rule names nets that are there, or a lawful name for a new one: its names can be seen.
#[tactic(auto, using(crate::proofs::Spoken::applied_visible))]
pub fn names_are_visible()
    ensures { (free : Bool) (rule : Rule) (old new : NetParts) → WellFormed old
        → Applies free rule old new → HasVisibleNames (Applied rule) }
{}

/// What applies where nothing is free leaves the same where others are free: a rule, and rules in turn.
#[tactic(auto, using(crate::proofs::Strict::strict_applied, crate::proofs::Strict::strict_replayed))]
pub fn strict_applies()
    ensures one { (rule : Rule) (old new : NetParts) → Applies false rule old new
        → Applies true rule old new }
    ensures all { (rules : List Rule) (old new : NetParts) → Replays false rules old new
        → Replays true rules old new }
{}

/// Rules that apply in turn leave at most one network, which is well formed, has the latches that were
/// there, and may take the place of the first one.
#[tactic(auto, using(crate::proofs::Replayed::replay_facts))]
pub fn replay_laws()
    ensures one { (free : Bool) (rules : List Rule) (old one other : NetParts) → WellFormed old
        → Replays free rules old one → Replays free rules old other → one ≡ other }
    ensures formed { (free : Bool) (rules : List Rule) (old new : NetParts) → WellFormed old
        → Replays free rules old new → WellFormed new }
    ensures latches { (free : Bool) (rules : List Rule) (old new : NetParts)
        → Replays free rules old new → new.latches ≡ old.latches }
    ensures refines { (free : Bool) (rules : List Rule) (old new : NetParts) → WellFormed old
        → Replays free rules old new → Refines free (of_net new) (of_net old) }
{}

/// Rules that leave each choice as it was leave a network that means what the old one meant: one rule, and
/// several in turn.
#[tactic(auto, using(crate::proofs::Meanings::applied_means, crate::proofs::Replayed::replayed_means))]
pub fn same_meaning()
    ensures one { (free : Bool) (rule : Rule) (old new : NetParts) → WellFormed old
        → keeps_choices rule ≡ true → Applies free rule old new
        → SameMeaning (of_net new) (of_net old) }
    ensures all { (free : Bool) (rules : List Rule) (old new : NetParts) → WellFormed old
        → list_all keeps_choices rules ≡ true → Replays free rules old new
        → SameMeaning (of_net new) (of_net old) }
{}

/// What a filling leaves allows what the old network allowed, under all values where that allowed some
/// choice.
#[tactic(auto, using(mv_plans::proofs::Filled::filled_means))]
pub fn fill_keeps()
    ensures { (free : Bool) (name : List ℕ) (out : ℕ) (old new : NetParts) → WellFormed old
        → Applies free (Fill name out) old new → SameWhereAllowed (of_net new) (of_net old) }
{}

/// Where every table was total, every table is, and where no net had more than two values, none has:
/// behind one rule, and behind several in turn.
#[tactic(auto, using(crate::proofs::Staying::staying))]
pub fn staying_laws()
    ensures total { (free : Bool) (rule : Rule) (old new : NetParts) → WellFormed old
        → AreTotal old.nets → Applies free rule old new → AreTotal new.nets }
    ensures all_total { (free : Bool) (rules : List Rule) (old new : NetParts) → WellFormed old
        → AreTotal old.nets → Replays free rules old new → AreTotal new.nets }
    ensures binary { (free : Bool) (rule : Rule) (old new : NetParts) → AreBinary old.nets
        → Applies free rule old new → AreBinary new.nets }
    ensures all_binary { (free : Bool) (rules : List Rule) (old new : NetParts)
        → AreBinary old.nets → Replays free rules old new → AreBinary new.nets }
{}

/// Where the table that is narrowed was total, from the same nets on as before some table isn't total.
pub fn narrowing_keeps_partial()
    ensures { (free : Bool) (name : List ℕ) (d u : ℕ) (body : Body) (old new : NetParts) (n : ℕ)
        (marks : List Bool) → WellFormed old → Applies free (Narrow name d u body) old new
        → IsTabled old.nets name n → IsTotalNet old.nets n → ArePartial old.nets marks
        → ArePartial new.nets marks }
{}

/// What a net is asked for by its readers' composites is told by the network: two such of one net are the
/// same. The literals of a composite are those of the composed table, and a composite that has them isn't
/// too wide.
#[tactic(auto, using(mv_plans::proofs::CompositeLiterals::composites_told))]
pub fn composite_laws()
    ensures same { (nets : List (Option FlatNet)) (one other : Inner) → IsInnerOf nets one
        → IsInnerOf nets other → one.net ≡ other.net → one ≡ other }
    ensures counted { (nets : List (Option FlatNet)) (inner : Inner) (m count : ℕ)
        → HasCompositeLiterals nets inner m count → composite_count nets inner m ≡ count }
    ensures narrow { (nets : List (Option FlatNet)) (inner : Inner) (m count : ℕ)
        → HasCompositeLiterals nets inner m count → HasWideComposite nets inner m → ⊥ }
{}

/// How a collapse is told by the composites of the net's readers. It leaves the literals that were there,
/// without those of the net and of its readers, and with those of the composites. Where each composite has
/// its literals the rule applies, and where one is too wide it fails.
#[tactic(auto, using(mv_plans::proofs::CompositeLiterals::collapse_told))]
pub fn collapse_laws()
    ensures literals { (net : NetParts) (inner : Inner) (readers : List NetId) → WellFormed net
        → IsInnerOf net.nets inner → IsAscending (λ m. reads_in net.nets m inner.net.0) readers
        → literals_in (collapsed net inner).nets
        + (literals_at net.nets inner.net + sum_by (literals_at net.nets) readers)
        ≡ literals_in net.nets + sum_by
        (λ (r : NetId). composite_count net.nets inner r.0) readers }
    ensures left { (net : NetParts) (name : List ℕ) (inner : Inner) (readers : List NetId)
        (count : ℕ)
        → WellFormed net → IsTabled net.nets name inner.net.0 → IsInnerOf net.nets inner
        → IsAscending (λ m. reads_in net.nets m inner.net.0) readers
        → LeavesLiterals (Collapse name) net count
        → count + (literals_at net.nets inner.net + sum_by (literals_at net.nets) readers)
        ≡ literals_in net.nets + sum_by
        (λ (r : NetId). composite_count net.nets inner r.0) readers }
    ensures applies { (net : NetParts) (name : List ℕ) (inner : Inner) (counts : ℕ → ℕ)
        → IsTabled net.nets name inner.net.0 → CanCollapse net inner.net.0
        → IsInnerOf net.nets inner
        → ((m : ℕ) → reads_in net.nets m inner.net.0 ≡ true
        → HasCompositeLiterals net.nets inner m (counts m))
        → Collapses net name (collapsed net inner) }
    ensures fails { (net : NetParts) (name : List ℕ) (inner : Inner) (m : ℕ)
        → IsTabled net.nets name inner.net.0 → CanCollapse net inner.net.0
        → IsInnerOf net.nets inner
        → HasWideComposite net.nets inner m → FailsCollapse net name RuleFault.Wide }
    ensures leaves { (net new : NetParts) (name : List ℕ) (inner : Inner) → WellFormed net
        → IsTabled net.nets name inner.net.0 → IsInnerOf net.nets inner → Collapses net name new
        → new ≡ collapsed net inner }
{}
