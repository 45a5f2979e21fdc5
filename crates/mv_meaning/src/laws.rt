ghost use Rattle.std.specs.Prelude.{◌≡◌, ◌⊎◌, ◌↔◌, ℕ, Bool, true, false, List, [], ◌∷◌, ◌++◌, Option, Some, None, map, slice_set};
ghost use Rattle.mv_base.specs.Meaning.{Refines, SameMeaning};
ghost use Rattle.mv_base.specs.declared.number.NetId.{NetId};
ghost use Rattle.mv_cover.specs.declared.cover.Cover.{Cover};
ghost use Rattle.mv_cover.specs.Covers.{allowed, cover_reads};
ghost use Rattle.mv_cover.specs.Covering.{IsPoint};
ghost use Rattle.mv_cover.specs.Lines.{IsOutput};
ghost use Rattle.mv_cover.specs.Plain.{AllowsOne};
ghost use Rattle.mv_graph.specs.Above.{IsAbove, IsAcyclic};
ghost use Rattle.mv_net.specs.declared.change.NewNet.{NewNet};
ghost use Rattle.mv_net.specs.declared.change.NewTable.{NewTable};
ghost use Rattle.mv_net.specs.declared.parts.FlatNet.{FlatNet};
ghost use Rattle.mv_net.specs.declared.parts.NetParts.{NetParts};
ghost use Rattle.mv_net.specs.Allowed.{net_allows, Agrees, of_net};
ghost use Rattle.mv_net.specs.Changes.{made_net, changed, with_nets};
ghost use Rattle.mv_net.specs.Formed.{IsCover, ResetsStandAlone, WellFormed};
ghost use Rattle.mv_net.specs.Index.{is_seen};
ghost use Rattle.mv_net.specs.Nets.{slot, values_in, table_in, reads_in};
ghost use Rattle.mv_net.specs.Plain.{IsPlainBuffer};
ghost use Rattle.mv_net.specs.Total.{IsTotal};
ghost use Rattle.mv_meaning.specs.Narrowing.{AreTotalBelow, IsRegion, KeepsSome, ReadsWithin, StaysInside};
ghost use Rattle.mv_meaning.specs.Rewriting.{
  AgreesUnread,
  AllowOneAbove,
  AreCovers,
  HasOneReader,
  JoinsTables,
  IsJoinedCover,
  IsNewNet,
  IsOverTable,
  IsReader,
  IsReformed,
  PutsAbove,
  ReadsAlong,
  SameWhereAllowed,
  SetsReaders,
  rewritten,
  with_net_table,
};

/// Nets that differ from those of a network in what stands in their tables alone: with them it is well formed where the tables
/// are covers, no net is above itself and no latch output above a reset net, as it is where each net reads what was above it; and
/// it means what it meant where the same assignments agree with them.
pub fn reformed_laws()
    ensures formed { (net : NetParts) (nets : List (Option FlatNet)) → WellFormed net
        → IsReformed net.nets nets → AreCovers net.nets nets → IsAcyclic (reads_in nets)
        → ResetsStandAlone nets
        → WellFormed (with_nets net nets) }
    ensures along { (net : NetParts) (nets : List (Option FlatNet)) → WellFormed net
        → IsReformed net.nets nets → AreCovers net.nets nets → ReadsAlong net.nets nets
        → WellFormed (with_nets net nets) }
    ensures means { (net : NetParts) (nets : List (Option FlatNet)) → IsReformed net.nets nets
        → ((at : ℕ → ℕ) → Agrees nets at ↔ Agrees net.nets at)
        → SameMeaning (of_net (with_nets net nets)) (of_net net) }
{}

/// The readers of a net get new tables: the network is well formed where these are covers and read what was above the reader, and
/// it means what it meant where each new table allows what the old one did, at each point that agrees with all nets that don't
/// read the net.
pub fn rewriting_laws()
    ensures formed { (net : NetParts) (n : ℕ) (new : Cover → Cover) → WellFormed net
        → ((m : ℕ) (c : Cover) → IsReader net.nets n m c
        → IsCover net.nets (values_in (slot net.nets m)) (new c))
        → ((m : ℕ) (c : Cover) (k : ℕ) → IsReader net.nets n m c → cover_reads (new c) k ≡ true
        → IsAbove (reads_in net.nets) k m)
        → WellFormed (with_nets net (rewritten new n net.nets)) }
    ensures means { (net : NetParts) (n : ℕ) (new : Cover → Cover)
        → ((at : ℕ → ℕ) → AgreesUnread net.nets n at → IsPoint (map values_in net.nets) at
        → (m : ℕ) (c : Cover)
        → IsReader net.nets n m c → allowed (new c) at (at m) ≡ allowed c at (at m))
        → SameMeaning (of_net (with_nets net (rewritten new n net.nets))) (of_net net) }
{}

/// One net gets another table, which reads neither it nor a net below it: no latch output comes to be above a reset net exactly
/// where the table puts none there, and then the network is well formed; and it means what it meant where, at each point that
/// agrees with the other nets, the table allows the net's value exactly where the old one did.
pub fn one_table_laws()
    ensures alone { (net : NetParts) (n : ℕ) (old c : Cover) → WellFormed net
        → table_in (slot net.nets n) ≡ Some old
        → (IsOverTable net.nets c n → ⊥)
        → ResetsStandAlone (with_net_table net.nets n c)
        ↔ ((l r : ℕ) → PutsAbove net.nets n c l r → ⊥) }
    ensures formed { (net : NetParts) (n : ℕ) (old c : Cover) → WellFormed net
        → table_in (slot net.nets n) ≡ Some old
        → IsCover net.nets (values_in (slot net.nets n)) c → (IsOverTable net.nets c n → ⊥)
        → ((l r : ℕ) → PutsAbove net.nets n c l r → ⊥)
        → WellFormed (with_nets net (with_net_table net.nets n c)) }
    ensures means { (net : NetParts) (n : ℕ) (old c : Cover) → table_in (slot net.nets n) ≡ Some old
        → ((at : ℕ → ℕ) → ((m : ℕ) → (m ≡ n → ⊥) → net_allows (slot net.nets m) at (at m) ≡ true)
        → IsPoint (map values_in net.nets) at → allowed c at (at n) ≡ allowed old at (at n))
        → SameMeaning (of_net (with_nets net (with_net_table net.nets n c))) (of_net net) }
{}

/// A net with a table over the others comes behind them: the network is well formed, and means what it meant if the table is
/// total.
pub fn adding_laws()
    ensures formed { (net : NetParts) (f : FlatNet) → WellFormed net → IsNewNet net.nets f
        → WellFormed (with_nets net (net.nets ++ Some f ∷ [])) }
    ensures means { (net : NetParts) (f : FlatNet) → WellFormed net → (made : IsNewNet net.nets f)
        → IsTotal net.nets made.cover
        → SameMeaning (of_net (with_nets net (net.nets ++ Some f ∷ []))) (of_net net) }
{}

/// A net that isn't seen goes, and its readers get tables in place of its own and theirs: the network is well formed where these
/// are covers that read what the two read; and it means what it meant where some net reads it and each new table allows what
/// the old one did with some value that the net's table allows, if that is one value at most, or one net alone reads it.
pub fn collapsing_laws()
    ensures formed { (net : NetParts) (n : ℕ) (inner : Cover) (new : Cover → Cover) → WellFormed net
        → table_in (slot net.nets n) ≡ Some inner → is_seen net n ≡ false
        → ((m : ℕ) (c : Cover) → IsReader net.nets n m c
        → IsJoinedCover net.nets (values_in (slot net.nets m)) inner n c (new c))
        → WellFormed (with_nets net (slice_set (rewritten new n net.nets) n None)) }
    ensures means { (net : NetParts) (n : ℕ) (inner : Cover) (new : Cover → Cover) → WellFormed net
        → table_in (slot net.nets n) ≡ Some inner → is_seen net n ≡ false
        → ((m : ℕ) (c : Cover) → IsReader net.nets n m c → JoinsTables net.nets inner n c (new c))
        → (m : ℕ) → reads_in net.nets m n ≡ true
        → AllowsOne inner ⊎ HasOneReader net.nets n
        → SameMeaning (of_net (with_nets net (slice_set (rewritten new n net.nets) n None)))
        (of_net net) }
{}

/// A plain buffer's readers get new tables that may read the net that it copies: the network is well formed where these are covers
/// that read nothing else besides what the old ones did; and it means what it meant where each allows what the old one did, at
/// each point where the buffer's net and the copied one have the same value.
pub fn wiring_laws()
    ensures formed { (net : NetParts) (n other : ℕ) (new : Cover → Cover) → WellFormed net
        → IsPlainBuffer net.nets n other
        → ((m : ℕ) (c : Cover) → IsReader net.nets n m c
        → IsCover net.nets (values_in (slot net.nets m)) (new c))
        → ((m : ℕ) (c : Cover) (k : ℕ) → IsReader net.nets n m c → cover_reads (new c) k ≡ true
        → (cover_reads c k ≡ true) ⊎ (k ≡ other))
        → WellFormed (with_nets net (rewritten new n net.nets)) }
    ensures means { (net : NetParts) (n other : ℕ) (new : Cover → Cover) → WellFormed net
        → IsPlainBuffer net.nets n other
        → ((at : ℕ → ℕ) → IsPoint (map values_in net.nets) at → at n ≡ at other
        → (m : ℕ) (c : Cover)
        → IsReader net.nets n m c → allowed (new c) at (at m) ≡ allowed c at (at m))
        → SameMeaning (of_net (with_nets net (rewritten new n net.nets))) (of_net net) }
{}

/// A net whose table isn't total gets the table with a default: the network is well formed where the default gives some values of
/// the net; and where each table above the net allows one value at most, the network allows what it allowed under all values where
/// it allowed some choice, and so may take the old one's place where others are free.
pub fn filling_laws()
    ensures formed { (net : NetParts) (n : ℕ) (c : Cover) (out : ℕ) → WellFormed net
        → table_in (slot net.nets n) ≡ Some c
        → (IsTotal net.nets c → ⊥) → IsOutput (values_in (slot net.nets n)) out
        → WellFormed (with_nets net (with_net_table net.nets n (record c { default = Some out }))) }
    ensures means { (net : NetParts) (n : ℕ) (c : Cover) (out : ℕ) → WellFormed net
        → table_in (slot net.nets n) ≡ Some c
        → (IsTotal net.nets c → ⊥) → AllowOneAbove net.nets n
        → SameWhereAllowed
        (of_net (with_nets net (with_net_table net.nets n (record c { default = Some out }))))
        (of_net net) }
    ensures refines { (net : NetParts) (n : ℕ) (c : Cover) (out : ℕ) → WellFormed net
        → table_in (slot net.nets n) ≡ Some c
        → (IsTotal net.nets c → ⊥) → AllowOneAbove net.nets n
        → Refines true
        (of_net (with_nets net (with_net_table net.nets n (record c { default = Some out }))))
        (of_net net) }
{}

/// A net's table gives way to one that reads no net besides: the network is well formed. It may take the old one's place, without
/// leave to be free too, where the table allows some value wherever the old one did, each table below the net is total, and inside
/// some region round it what the table allows can be replaced by what was allowed, with the same values at the region's inputs and
/// outputs.
pub fn narrowing_laws()
    ensures formed { (net : NetParts) (n : ℕ) (old new : Cover) → WellFormed net
        → table_in (slot net.nets n) ≡ Some old
        → IsCover net.nets (values_in (slot net.nets n)) new → ReadsWithin old new
        → WellFormed (with_nets net (with_net_table net.nets n new)) }
    ensures refines { (free : Bool) (net : NetParts) (n : ℕ) (old new : Cover)
        (inside input output : ℕ → Bool) → WellFormed net
        → table_in (slot net.nets n) ≡ Some old
        → IsCover net.nets (values_in (slot net.nets n)) new → ReadsWithin old new
        → KeepsSome net.nets old new → AreTotalBelow net.nets n
        → IsRegion net inside input output → inside n ≡ true
        → StaysInside net.nets inside input output n new
        → Refines free (of_net (with_nets net (with_net_table net.nets n new))) (of_net net) }
{}

/// What a change leaves that gives one net a table, that gives the readers of a net their new ones, that lets the net go besides, or
/// by which one net comes.
pub fn change_laws()
    ensures one { (net : NetParts) (n : NetId) (c : Cover)
        → changed net
        (record { add = []; set = record { net = n; table = c } ∷ []; values = []; gone = [] })
        ≡ with_nets net (with_net_table net.nets n.0 c) }
    ensures readers { (net : NetParts) (n : ℕ) (new : Cover → Cover) (list : List NewTable)
        → SetsReaders new n net.nets list
        → changed net (record { add = []; set = list; values = []; gone = [] })
        ≡ with_nets net (rewritten new n net.nets) }
    ensures gone { (net : NetParts) (n : NetId) (new : Cover → Cover) (list : List NewTable)
        → SetsReaders new n.0 net.nets list
        → changed net (record { add = []; set = list; values = []; gone = n ∷ [] })
        ≡ with_nets net (slice_set (rewritten new n.0 net.nets) n.0 None) }
    ensures added { (net : NetParts) (m : NewNet)
        → changed net (record { add = m ∷ []; set = []; values = []; gone = [] })
        ≡ with_nets net (net.nets ++ made_net m ∷ []) }
{}
