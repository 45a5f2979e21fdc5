ghost use Rattle.std.specs.Prelude.{◌≡◌, ◌<◌, ◌+◌, ℕ, List, length};
ghost use Rattle.mv_cover.specs.declared.cover.Cover.{Cover};
ghost use Rattle.mv_cover.specs.Covers.{cover_reads};
ghost use Rattle.mv_cover.specs.Plain.{IsPlainlyDeterministic};
ghost use Rattle.mv_composite.specs.Inside.{AreCubes, IsCoverOver};
ghost use Rattle.mv_entry.specs.declared.rule.Code.{Code};
ghost use Rattle.mv_codes.specs.declared.coding.Coding.{Coding};
ghost use Rattle.mv_codes.specs.Codes.{AreCodes, bit_number, bit_of};
ghost use Rattle.mv_codes.specs.Tables.{coding_of, value_at, reader_coded, bit_table};
ghost use Rattle.mv_codes.specs.Rewriting.{IsCoding, AllowsCoded, ReadsCoded, AreCodedCounts, AllowsBits};

/// Where the bits are those of a value's code, they count as that value.
pub fn code_laws()
    ensures { (n first values bits v : ℕ) (codes : List Code) (at : ℕ → ℕ)
        → AreCodes values bits codes → v < values
        → ((k : ℕ) → k < bits → at (first + k) ≡ bit_number (bit_of codes k v))
        → value_at (coding_of n first codes) at ≡ v }
{}

/// What a reader's table is once the net is encoded: it allows what it allowed where the net has the value that the bits count
/// as, it is well formed, and it reads bits in place of the net.
pub fn reader_laws()
    ensures allows { (coding : Coding) (c : Cover) → IsCoding coding → AreCubes c.lines
        → AllowsCoded coding c (reader_coded coding c) }
    ensures formed { (coding : Coding) (old new : List ℕ) (values : ℕ) (c : Cover)
        → AreCodedCounts coding old new
        → IsCoverOver old values c → IsCoverOver new values (reader_coded coding c) }
    ensures reads { (coding : Coding) (c : Cover) → AreCubes c.lines
        → ReadsCoded coding c (reader_coded coding c) }
{}

/// What the table of a bit is: it allows the bits of the values that the net's table allows, is well formed where that is plainly
/// deterministic, and reads the same.
pub fn bit_laws()
    ensures allows { (codes : List Code) (k : ℕ) (c : Cover)
        → AllowsBits codes k c (bit_table codes k c) }
    ensures formed { (counts : List ℕ) (codes : List Code) (k : ℕ) (c : Cover)
        → IsCoverOver counts (length codes) c → IsPlainlyDeterministic c
        → IsCoverOver counts 2 (bit_table codes k c) }
    ensures reads { (codes : List Code) (k m : ℕ) (c : Cover)
        → cover_reads (bit_table codes k c) m ≡ cover_reads c m }
{}
