ghost use Rattle.std.specs.Prelude.{◌≡◌, ◌⊎◌, ◌+◌, ◌<◌, ◌≤◌, ℕ, false, List, length};
ghost use Rattle.mv_base.specs.Meaning.{SameMeaning};
ghost use Rattle.mv_coding.specs.Nets.{IsEncodable, net_coded};
ghost use Rattle.mv_entry.specs.declared.rule.Code.{Code};
ghost use Rattle.mv_net.specs.Allowed.{of_net};
ghost use Rattle.mv_net.specs.Formed.{WellFormed};
ghost use Rattle.mv_net.specs.Index.{is_seen};
ghost use Rattle.mv_net.specs.Nets.{slot, values_in};
ghost use Rattle.mv_net.specs.Total.{IsTotalNet};
ghost use Rattle.mv_net.specs.declared.parts.NetParts.{NetParts};

/// The values of a net that isn't seen are encoded where they can be: the network is well formed and means what it meant, each
/// other total table stays total, the tables of the bits are total where the net's own was, and no net has more values than
/// before, or it has two.
pub fn coding_laws()
    ensures formed { (net : NetParts) (n : ℕ) (names : List (List ℕ)) (codes : List Code)
        → WellFormed net
        → is_seen net n ≡ false → IsEncodable net n names codes
        → WellFormed (net_coded net n names codes) }
    ensures means { (net : NetParts) (n : ℕ) (names : List (List ℕ)) (codes : List Code)
        → WellFormed net
        → is_seen net n ≡ false → IsEncodable net n names codes
        → SameMeaning (of_net (net_coded net n names codes)) (of_net net) }
    ensures total { (net : NetParts) (n : ℕ) (names : List (List ℕ)) (codes : List Code) (k : ℕ)
        → WellFormed net
        → IsEncodable net n names codes → (k ≡ n → ⊥) → IsTotalNet net.nets k
        → IsTotalNet (net_coded net n names codes).nets k }
    ensures total_bits { (net : NetParts) (n : ℕ) (names : List (List ℕ)) (codes : List Code)
        (i : ℕ) → WellFormed net
        → IsEncodable net n names codes → i < length names → IsTotalNet net.nets n
        → IsTotalNet (net_coded net n names codes).nets (length net.nets + i) }
    ensures few { (net : NetParts) (n : ℕ) (names : List (List ℕ)) (codes : List Code) (k : ℕ)
        → WellFormed net
        → IsEncodable net n names codes
        → (values_in (slot (net_coded net n names codes).nets k) ≤ values_in (slot net.nets k))
        ⊎ (values_in (slot (net_coded net n names codes).nets k) ≡ 2) }
{}
