ghost use Rattle.std.specs.Prelude.{ℕ, MatchOption};
ghost use Rattle.mv_plans.specs.Checks.{IsTabled};

use mv_base::{Name, NetId};
use mv_net::Network;

/// The number of the net with this name, if it has a table.
pub fn tabled(net: &Network, name: &Name) -> Option<NetId>
    ensures { MatchOption result ((n : ℕ) → IsTabled net.now.nets name.now n → ⊥)
        (λ n. IsTabled net.now.nets name.now n.0) }
{
    net.well_formed();
    match net.find(name.bytes()) {
        Some(n) => match net.table(n) {
            Some(_table) => Some(n),
            None => None,
        },
        None => None,
    }
}
