ghost use Rattle.std.specs.Prelude.{◌≡◌, ℕ, count_by};
ghost use Rattle.mv_solve.specs.Asked.{asked_of};
ghost use Rattle.mv_solve.specs.Known.{may_match, must_match, is_only};

use crate::Asked;
use mv_base::NetId;
use mv_cover::Lit;

/// What is known of a net, by its number.
pub fn known_of(known: &[Asked], n: NetId) -> Asked
    ensures { result ≡ asked_of known.now n.0 }
{
    known.get(n.0 as usize).copied().unwrap_or(Asked::Anything)
}

/// Whether each literal may hold, for all that is known of its net.
pub fn may_match(known: &[Asked], cube: &[Lit]) -> bool
    ensures { result ≡ may_match known.now cube.now }
{
    cube.iter()
        .all(|literal| known_of(known, literal.net()).may_hold(literal))
}

/// Whether each literal holds by what is known of its net.
pub fn must_match(known: &[Asked], cube: &[Lit]) -> bool
    ensures { result ≡ must_match known.now cube.now }
{
    cube.iter().all(|literal| known_of(known, literal.net()).must_hold(literal))
}

/// How many nets have one value.
pub fn count_only(known: &[Asked]) -> usize
    ensures { result ≡ count_by is_only known.now }
{
    known.iter().filter(|asked| asked.is_only()).count()
}
