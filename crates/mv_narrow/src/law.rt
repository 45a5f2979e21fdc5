ghost use Rattle.std.specs.Prelude.{◌≡◌, ℕ, Bool, Some, Option, List};
ghost use Rattle.mv_base.specs.Meaning.{Refines};
ghost use Rattle.mv_cover.specs.declared.cover.Cover.{Cover};
ghost use Rattle.mv_flex.specs.Flex.{CoverInFlex};
ghost use Rattle.mv_meaning.specs.Narrowing.{ReadsWithin};
ghost use Rattle.mv_meaning.specs.Rewriting.{with_net_table};
ghost use Rattle.mv_narrow.specs.declared.verdict.NarrowVerdict.{NarrowVerdict};
ghost use Rattle.mv_narrow.specs.declared.verdict.NarrowVerdict.TheVariants.{NoNodes, Lawful};
ghost use Rattle.mv_narrow.specs.Verdicts.{AllowsLess, IsNarrowVerdict};
ghost use Rattle.mv_net.specs.declared.parts.FlatNet.{FlatNet};
ghost use Rattle.mv_net.specs.declared.parts.NetParts.{NetParts};
ghost use Rattle.mv_net.specs.declared.window.Window.{Window};
ghost use Rattle.mv_net.specs.Window.{IsWindow};
ghost use Rattle.mv_net.specs.Allowed.{of_net};
ghost use Rattle.mv_net.specs.Changes.{with_nets};
ghost use Rattle.mv_net.specs.Formed.{IsCover, WellFormed};
ghost use Rattle.mv_net.specs.Nets.{slot, table_in, values_in};

/// Where the verdict is lawful the network with the new table may take the old one's place, without leave to be free too.
pub fn narrow_laws()
    ensures { (free : Bool) (net : NetParts) (n d u budget : ℕ) (old new : Cover) → WellFormed net
        → table_in (slot net.nets n) ≡ Some old
        → IsCover net.nets (values_in (slot net.nets n)) new → ReadsWithin old new
        → IsNarrowVerdict net n d u budget old new Lawful
        → Refines free (of_net (with_nets net (with_net_table net.nets n new))) (of_net net) }
{}

/// A net has one window of so many steps, and a table that is to give way to another in it gets one verdict, but that there may
/// be too few nodes for it.
pub fn verdict_laws()
    ensures window { (net : NetParts) (n d u : ℕ) (one other : Window) → IsWindow net n d u one
        → IsWindow net n d u other → one ≡ other }
    ensures verdict { (net : NetParts) (n d u budget : ℕ) (old new : Cover)
        (one other : NarrowVerdict)
        → IsNarrowVerdict net n d u budget old new one
        → IsNarrowVerdict net n d u budget old new other
        → (one ≡ NoNodes → ⊥) → (other ≡ NoNodes → ⊥) → one ≡ other }
{}

/// What a net's table allows is in the net's flexibility in any window, and so is all that a table allows which allows less.
pub fn less_is_inside()
    ensures { (nets : List (Option FlatNet)) (w : Window) (n : ℕ) (old new : Cover)
        → table_in (slot nets n) ≡ Some old
        → AllowsLess nets n old new → CoverInFlex nets w n new }
{}
