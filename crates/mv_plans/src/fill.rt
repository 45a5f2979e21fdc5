ghost use Rattle.std.specs.Prelude.{◌≡◌, ◌↔◌, [], ◌∷◌, All, IsTrue, IfOk, MatchBool};
ghost use Rattle.mv_base.specs.declared.number.NetId.{NetId};
ghost use Rattle.mv_net.specs.Index.{is_held};
ghost use Rattle.mv_plans.specs.Checks.{Answers};
ghost use Rattle.mv_plans.specs.Filling.{
  ArePlainAbove,
  CanFill,
  Fills,
  FillRow,
  FailsFill,
  IsPlainIfTabled,
  with_default,
};
ghost use Rattle.mv_plans.specs.Plans.{IsPlanned};

use crate::divide::getting;
use crate::lookup::tabled;
use mv_base::{Memory, Name, NetId, PackedSet, ValueSet};
use mv_body::is_output;
use mv_cover::Cover;
use mv_entry::RuleFault;
use mv_net::{Change, Network};
use mv_readers::table_of;
use std::alloc::Global;

/// The change by which the net with this name gets these values as its default, or the first check that fails.
pub fn plan_fill(
    alloc: Global,
    net: &Network,
    free: bool,
    name: &Name,
    out: &PackedSet,
) -> Result<Change, RuleFault>
    ensures { Answers result (IsPlanned net.now (Fills free net.now name.now out.now))
        (FailsFill free net.now name.now out.now) }
{
    net.well_formed();
    net.few();
    let Some(n) = tabled(net, name) else {
        return Err(RuleFault::NoNet);
    };
    match check_fill(alloc, net, free, n, out.get()) {
        Ok(()) => {}
        Err(fault) => return Err(fault),
    }
    Ok(filling(alloc, n, table_of(net, n), out)?)
}

/// Whether the net may get the values as its default, or the first check that fails.
fn check_fill(
    alloc: Global,
    net: &Network,
    free: bool,
    n: NetId,
    out: ValueSet,
) -> Result<(), RuleFault>
    requires { IsTrue (is_held net.now.nets n.0) }
    ensures { Answers result (λ _. CanFill free net.now.nets n.0 out)
        (FillRow free out net.now n.0) }
{
    net.well_formed();
    if !free {
        return Err(RuleFault::Strict);
    }
    if !is_output(out, net.values(n)) {
        return Err(RuleFault::Form);
    }
    if net.is_total(alloc, n)? {
        return Err(RuleFault::Total);
    }
    if !is_plain_above(net, n)? {
        return Err(RuleFault::Varied);
    }
    Ok(())
}

/// Whether each table above the net is plainly deterministic.
fn is_plain_above(net: &Network, n: NetId) -> Result<bool, Memory>
    ensures { IfOk result (λ plain. MatchBool plain (ArePlainAbove net.now.nets n.0)
        (ArePlainAbove net.now.nets n.0 → ⊥)) }
{
    let above = net.above(n)?;
    Ok(all_plain(net, above.as_slice()))
}

/// Whether each of these nets has no table, or one that is plainly deterministic.
fn all_plain(net: &Network, nets: &[NetId]) -> bool
    ensures { IsTrue result ↔ All (λ (m : NetId). IsPlainIfTabled net.now.nets m.0) nets.now }
{
    nets.iter().all(|m| is_plain(net, *m))
}

/// Whether the net has no table, or one that is plainly deterministic.
fn is_plain(net: &Network, m: NetId) -> bool
    ensures { IsTrue result ↔ IsPlainIfTabled net.now.nets m.0 }
{
    if !net.holds(m) {
        return true;
    }
    match net.table(m) {
        Some(_table) => net.is_plainly_deterministic(m),
        None => true,
    }
}

/// The change by which the net gets the table with this default.
fn filling(alloc: Global, n: NetId, table: &Cover, out: &PackedSet) -> Result<Change, Memory>
    ensures { IfOk result (λ change. change
        ≡ record {
          add = [];
          set = record { net = n; table = with_default table.now out.now }
              ∷ [];
          values = [];
          gone = [];
        }) }
{
    let mut table = table.copy()?;
    table.default = Some(out.copy()?);
    getting(alloc, n, table)
}
