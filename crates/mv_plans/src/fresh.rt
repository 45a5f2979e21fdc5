ghost use Rattle.std.specs.Prelude.{◌≡◌, All, MatchBool};
ghost use Rattle.mv_base.specs.Names.{among, names_differ};
ghost use Rattle.mv_plans.specs.Checks.{AreNewNames, IsNewName};

use mv_base::{MAX_WORD_BYTES, Name};
use mv_net::Network;
use mv_word::is_net_name;

/// Whether a new net may have this name.
pub fn is_new_name(net: &Network, name: &Name) -> bool
    ensures { MatchBool result (IsNewName net.now.nets name.now)
        (IsNewName net.now.nets name.now → ⊥) }
{
    if !is_net_name(name.bytes()) {
        return false;
    }
    if name.bytes().len() as u64 > MAX_WORD_BYTES {
        return false;
    }
    match net.find(name.bytes()) {
        Some(_net) => false,
        None => true,
    }
}

/// Whether new nets may have these names: each may be one's, and no two are equal.
pub fn are_new_names(net: &Network, names: &[Name]) -> bool
    ensures { MatchBool result (AreNewNames net.now.nets names.now)
        (AreNewNames net.now.nets names.now → ⊥) }
{
    if !all_new(net, names) {
        return false;
    }
    all_differ(names)
}

/// Whether a new net may have each of the names.
fn all_new(net: &Network, names: &[Name]) -> bool
    ensures { MatchBool result (All (IsNewName net.now.nets) names.now)
        (All (IsNewName net.now.nets) names.now → ⊥) }
{
    for name in names {
        if !is_new_name(net, name) {
            return false;
        }
    }
    true
}

/// Whether no name is equal to a later one.
fn all_differ(names: &[Name]) -> bool
    ensures { result ≡ names_differ names.now }
{
    let mut rest = names;
    'looking: while let [name, others @ ..] = rest {
        if is_among(name, others) {
            return false;
        }
        rest = others;
    }
    true
}

/// Whether the name is one of these.
fn is_among(name: &Name, others: &[Name]) -> bool
    ensures { result ≡ among name.now others.now }
{
    others.iter().any(|other| name == other)
}
