ghost use Rattle.std.specs.Prelude.{◌≡◌, ℕ, ◌≤◌, Bool, false, List, Option, Some};
ghost use Rattle.mv_base.specs.Meaning.{Refines, SameMeaning};
ghost use Rattle.mv_chosen.specs.Binary.{binary_choice};
ghost use Rattle.mv_chosen.specs.Chosen.{AlwaysResets, AreChosen, HaveFixedResets, TakesOne};
ghost use Rattle.mv_chosen.specs.Written.{AreFirstValues, written_nets};
ghost use Rattle.mv_cover.specs.declared.cover.Cover.{Cover};
ghost use Rattle.mv_cover.specs.Plain.{AllowsOne};
ghost use Rattle.mv_meaning.specs.Rewriting.{IsReformed};
ghost use Rattle.mv_net.specs.declared.parts.FlatNet.{FlatNet};
ghost use Rattle.mv_net.specs.declared.parts.NetParts.{NetParts};
ghost use Rattle.mv_net.specs.Allowed.{of_net};
ghost use Rattle.mv_net.specs.Changes.{with_nets};
ghost use Rattle.mv_net.specs.Formed.{WellFormed};
ghost use Rattle.mv_net.specs.Nets.{slot, table_in, values_in};
ghost use Rattle.mv_net.specs.Total.{IsTotal};

/// Tables of a network all tables of which are total give way to tables that take one of their values at each point, and reset
/// tables, if one likes, to the one value that the network always resets the latch to: the network with them may take the old
/// one's place, without leave to be free too, and all its tables are total.
pub fn chosen_laws()
    ensures refines { (free : Bool) (net : NetParts) (nets : List (Option FlatNet)) → WellFormed net
        → ((n : ℕ) (c : Cover) → table_in (slot net.nets n) ≡ Some c → IsTotal net.nets c)
        → AreChosen net nets → Refines free (of_net (with_nets net nets)) (of_net net) }
    ensures total { (net : NetParts) (nets : List (Option FlatNet)) → WellFormed net
        → ((n : ℕ) (c : Cover) → table_in (slot net.nets n) ≡ Some c → IsTotal net.nets c)
        → AreChosen net nets
        → (n : ℕ) (c : Cover) → table_in (slot nets n) ≡ Some c → IsTotal nets c }
{}

/// Reset tables of such a network give way to the one value that it always resets the latch to: it means what it meant. What may
/// take the place of a network always resets a latch as that does.
pub fn reset_laws()
    ensures means { (net : NetParts) (nets : List (Option FlatNet)) → WellFormed net
        → ((n : ℕ) (c : Cover) → table_in (slot net.nets n) ≡ Some c → IsTotal net.nets c)
        → HaveFixedResets net nets → SameMeaning (of_net (with_nets net nets)) (of_net net) }
    ensures always { (b a : NetParts) (place value : ℕ) → Refines false (of_net b) (of_net a)
        → AlwaysResets (of_net a) place value → AlwaysResets (of_net b) place value }
{}

/// The table that says one value for each point, by rows for 1 and else 0 or by rows for 0 and else 1, takes one of the values of a
/// total table, where its net has two values at most. So the nets of a network with such tables, and reset tables that say the value
/// which the network always resets the latch to, are chosen.
pub fn binary_laws()
    ensures takes { (net : NetParts) (n : ℕ) (c : Cover) → WellFormed net
        → table_in (slot net.nets n) ≡ Some c → values_in (slot net.nets n) ≤ 2
        → IsTotal net.nets c → TakesOne net.nets c (binary_choice c) }
    ensures chosen { (net : NetParts) (vs : List ℕ) → WellFormed net
        → ((n : ℕ) (c : Cover) → table_in (slot net.nets n) ≡ Some c → IsTotal net.nets c)
        → ((n : ℕ) → values_in (slot net.nets n) ≤ 2) → AreFirstValues net vs
        → AreChosen net (written_nets net vs) }
{}

/// A network each table of which allows one value at most: what may take its place means the same, whichever tables it has.
pub fn one_choice_laws()
    ensures same { (a net : NetParts) (nets : List (Option FlatNet)) → WellFormed a
        → ((n : ℕ) (c : Cover) → table_in (slot a.nets n) ≡ Some c → AllowsOne c)
        → WellFormed net → IsReformed net.nets nets
        → Refines false (of_net (with_nets net nets)) (of_net a)
        → SameMeaning (of_net (with_nets net nets)) (of_net a) }
{}
