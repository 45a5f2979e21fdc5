ghost use Rattle.std.specs.Prelude.{◌≡◌, ◌↔◌, ℕ, ◌≤◌, true, not, ◌&&◌, ◌||◌, ◌==◌, nat_lt};
ghost use Rattle.std.specs.Prelude.{slice_get, Some, List, [], ◌∷◌, length, All};
ghost use Rattle.std.specs.List.{list_all};
ghost use Rattle.mv_acyclic.specs.Sound.{reads, StandsAlone};
ghost use Rattle.mv_blif.specs.Grammar.{IsBlif, AreWithinLimits};
ghost use Rattle.mv_blif_back.specs.Alike.{AreAlike, ChoicesHold, HasValues};
ghost use Rattle.mv_blif_back.specs.Back.{ReadsBack};
ghost use Rattle.mv_blif_back.specs.Model.{gate_said, model_said, design_said};
ghost use Rattle.mv_blif_back.specs.Said.{AreSaid, IsBinary, HasSmallTables, inits};
ghost use Rattle.mv_blif_line.specs.Latches.{constant_reset};
ghost use Rattle.mv_blif_text.specs.BlifText.{blif_lines, blif_text};
ghost use Rattle.mv_chosen.specs.Binary.{binary_choice};
ghost use Rattle.mv_chosen.specs.Written.{constant, written_nets};
ghost use Rattle.mv_cover.specs.declared.cover.Cover.{Cover};
ghost use Rattle.mv_cover.specs.Covers.{allowed};
ghost use Rattle.mv_design.specs.declared.design.FileLatch.{FileLatch};
ghost use Rattle.mv_design.specs.Meaning.{table_holds, may_begin, of_model};
ghost use Rattle.mv_design.specs.Tables.{table_allows};
ghost use Rattle.mv_graph.specs.Above.{IsAcyclic};
ghost use Rattle.mv_latch.specs.declared.latch.BlifLatch.{BlifLatch};
ghost use Rattle.mv_lex.specs.Lines.{lines_of, is_clean};
ghost use Rattle.mv_lines_back.specs.TextWords.{lines_from};
ghost use Rattle.mv_net.specs.declared.parts.FlatLatch.{FlatLatch};
ghost use Rattle.mv_net.specs.declared.parts.FlatNet.{FlatNet};
ghost use Rattle.mv_net.specs.declared.parts.NetParts.{NetParts};
ghost use Rattle.mv_net.specs.Changes.{with_nets};
ghost use Rattle.mv_net.specs.Formed.{WellFormed};
ghost use Rattle.mv_net.specs.Nets.{slot, name_in, values_in, interface_of};
ghost use Rattle.mv_text.specs.Text.{fanins_of};

/// The text of a network as BLIF is clean, and is read as the lines that were written, one on each physical line.
pub fn blif_text_is_read()
    ensures clean { (net : NetParts) (bs : List BlifLatch) → WellFormed net
        → AreSaid net net.latches bs → is_clean (blif_text net bs) ≡ true }
    ensures lines { (net : NetParts) (bs : List BlifLatch) → WellFormed net
        → AreSaid net net.latches bs
        → lines_of (blif_text net bs) ≡ lines_from 1 (blif_lines net bs) }
{}

/// BLIF's grammar relates its lines to a design, limits aside: one of this model, with the same said of its latches. They have no
/// fault at all where no table has too many columns or rows.
pub fn blif_text_is_accepted()
    ensures accepted { (net : NetParts) (bs : List BlifLatch) → WellFormed net
        → AreSaid net net.latches bs
        → IsBlif (lines_of (blif_text net bs)) (design_said net bs) }
    ensures within { (net : NetParts) (bs : List BlifLatch) → WellFormed net
        → AreSaid net net.latches bs → HasSmallTables net
        → AreWithinLimits (lines_of (blif_text net bs)) }
{}

/// The tables of that model allow by name what the network's tables allow by number that say one value for each point, and its reset
/// tables what the network's allow that say the value which the latch begins with.
pub fn blif_tables_hold()
    ensures tables { (net : NetParts) (n line : ℕ) (f : FlatNet) (c : Cover)
        (value : List ℕ → ℕ) (at : ℕ → ℕ) → WellFormed net
        → ((m : ℕ) → values_in (slot net.nets m) ≤ 2)
        → slot net.nets n ≡ Some f → f.table ≡ Some c → AreAlike net value at
        → table_holds value (gate_said net.nets line f.name (fanins_of (length net.nets) c) c)
        ≡ allowed (binary_choice c) at (value f.name) }
    ensures resets { (line v r : ℕ) (net : List ℕ) (at : ℕ → ℕ)
        → table_allows (constant_reset line net v).rows (constant_reset line net v).default [] (r ∷ [])
        ≡ allowed (constant v) at r }
{}

/// The model is seen from outside as the network is with its written tables, where what is seen of this has the values 0 and 1.
pub fn blif_model_is_seen()
    ensures { (net : NetParts) (bs : List BlifLatch) → WellFormed net → IsBinary net
        → AreSaid net net.latches bs
        → (of_model (model_said net bs)).interface
        ≡ interface_of (with_nets net (written_nets net (inits bs))) }
{}

/// Where values by name are values by number, the model's ports and latches have the values of the network's, and its tables hold
/// where the choice of each table allows the value of its net, and only there.
pub fn blif_model_agrees()
    ensures ports { (net : NetParts) (bs : List BlifLatch) (value : List ℕ → ℕ) (at : ℕ → ℕ)
        → WellFormed net → AreAlike net value at
        → HasValues net (model_said net bs) value at }
    ensures holds { (net : NetParts) (bs : List BlifLatch) (value : List ℕ → ℕ) (at : ℕ → ℕ)
        → WellFormed net → AreAlike net value at → ((m : ℕ) → values_in (slot net.nets m) ≤ 2)
        → ChoicesHold net value at
        ↔ (list_all (table_holds value) (model_said net bs).tables ≡ true) }
{}

/// A latch of the model may begin with 0 and 1, but where its line says one of them with that alone.
pub fn blif_latches_begin()
    ensures { (net : NetParts) (bs : List BlifLatch) (value : List ℕ → ℕ) (k r : ℕ)
        (l : FlatLatch) (b : BlifLatch) (h : FileLatch) → WellFormed net
        → slice_get net.latches k ≡ Some l → slice_get bs k ≡ Some b
        → h.output ≡ name_in (slot net.nets l.output.0)
        → may_begin (model_said net bs) value h r
        ≡ (nat_lt r 2 && (not (nat_lt b.init 2) || (r == b.init))) }
{}

/// No net of the model is above itself, and no latch above a reset value.
pub fn blif_model_is_acyclic()
    ensures acyclic { (net : NetParts) (bs : List BlifLatch) → WellFormed net
        → IsAcyclic (reads (model_said net bs)) }
    ensures alone { (net : NetParts) (bs : List BlifLatch) → WellFormed net
        → All (StandsAlone (model_said net bs)) (model_said net bs).resets }
{}

/// The text of a network that can be written as BLIF, with what is said of its latches, has no fault but limits. It reads as a sound
/// design with the same said of them, which means what the network with its written tables means. Where its tables are small, its
/// lines pass no limit.
pub fn blif_reads_back()
    ensures { (net : NetParts) (bs : List BlifLatch) → WellFormed net → IsBinary net
        → AreSaid net net.latches bs → ReadsBack net bs }
{}
