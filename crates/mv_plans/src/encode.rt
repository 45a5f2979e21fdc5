ghost use Rattle.std.specs.Prelude.{IsTrue, MatchBool};
ghost use Rattle.mv_net.specs.Index.{is_held};
ghost use Rattle.mv_plans.specs.Checks.{Answers, HasRoomFor};
ghost use Rattle.mv_plans.specs.Encoding.{CanEncode, EncodeRow, Encodes, FailsEncode};
ghost use Rattle.mv_plans.specs.Plans.{IsPlanned};

use crate::fresh::are_new_names;
use crate::lookup::tabled;
use mv_base::{MAX_NETS, Name, NetId};
use mv_coding::{are_codes, coding_change};
use mv_cover::CoverStop;
use mv_entry::{Code, RuleFault};
use mv_net::{Change, Network};
use std::alloc::Global;

/// The change by which the net with this name goes, and nets of two values with these names come, one for each bit of the codes
/// of its values, or the first check that fails.
pub fn plan_encode(
    alloc: Global,
    net: &Network,
    name: &Name,
    names: &[Name],
    codes: &[Code],
) -> Result<Change, RuleFault>
    ensures { Answers result (IsPlanned net.now (Encodes net.now name.now names.now codes.now))
        (FailsEncode net.now name.now names.now codes.now) }
{
    net.well_formed();
    let Some(n) = tabled(net, name) else {
        return Err(RuleFault::NoNet);
    };
    match check_encode(net, n, names, codes) {
        Ok(()) => {}
        Err(fault) => return Err(fault),
    }
    let change = match coding_change(alloc, net, n, names, codes) {
        Ok(change) => change,
        Err(CoverStop::Wide) => return Err(RuleFault::Wide),
        Err(CoverStop::Memory) => return Err(RuleFault::Memory),
    };
    if !has_room(net, names.len()) {
        return Err(RuleFault::Nets);
    }
    Ok(change)
}

/// Whether the values of the net can be encoded so, as far as no table gets too large and the numbers of nets suffice, or the
/// first check that fails.
fn check_encode(net: &Network, n: NetId, names: &[Name], codes: &[Code]) -> Result<(), RuleFault>
    requires { IsTrue (is_held net.now.nets n.0) }
    ensures { Answers result (λ _. CanEncode net.now n.0 names.now codes.now)
        (EncodeRow names.now codes.now net.now n.0) }
{
    if net.is_seen(n) {
        return Err(RuleFault::Visible);
    }
    if !net.is_plainly_deterministic(n) {
        return Err(RuleFault::Varied);
    }
    if !are_codes(net.values(n), names.len(), codes) {
        return Err(RuleFault::Form);
    }
    if !are_new_names(net, names) {
        return Err(RuleFault::NotFresh);
    }
    Ok(())
}

/// Whether so many numbers more may be used.
fn has_room(net: &Network, count: usize) -> bool
    ensures { MatchBool result (HasRoomFor net.now.nets count) (HasRoomFor net.now.nets count → ⊥) }
{
    net.few();
    if count as u64 > MAX_NETS - net.next_number() as u64 {
        return false;
    }
    true
}
