ghost use Rattle.std.specs.Prelude.{◌≡◌, ◌<◌, ◌≤◌, All, IfOk, OnOk, IsTrue, length, map};
ghost use Rattle.std.specs.List.{IsDistinct};
ghost use Rattle.mv_base.specs.declared.limits.TheConstants.{MAX_NETS};
ghost use Rattle.mv_cover.specs.Equal.{cube_eq};
ghost use Rattle.mv_saving.specs.Saving as savings;
ghost use Rattle.mv_net.specs.Index.{is_held};
ghost use Rattle.mv_gains.specs.Best.{IsSaved};
ghost use Rattle.mv_gains.specs.Candidates.{IsDivisorFor};
ghost use Rattle.mv_gains.specs.Gains.{covers_at};
ghost use Rattle.mv_gains.specs.Holders.{Ascends};
ghost use Rattle.mv_gains.specs.Tables.{IsGainAt, IsReady};
ghost use Rattle.mv_gains.specs.Known.{AreHeld, IsKnown, IsLiteralOn, IsOn, IsRight, numbers, standing};
ghost use Rattle.mv_gains.specs.Grown.{IsOneOf};

use crate::kernels::Candidate;
use crate::marks::stamp_of;
use crate::tables::saving_of;
use mv_base::{Items, Memory, NetId};
use mv_cover::{Cube, Lit};
use mv_divide::Part;
use mv_net::Network;
use mv_saving::literals;

/// What dividing the tables of these nets by the divisor saves.
fn gain_of(covers: &[Items<Part>], nets: &[NetId], divisor: &[Cube]) -> Result<u128, Memory>
    requires ready { All IsReady covers.now }
    requires places { Ascends 0 (length covers.now) (numbers nets.now) }
    requires few { length covers.now ≤ MAX_NETS }
    requires distinct { IsDistinct cube_eq divisor.now }
    requires some { 0 < savings.literals divisor.now }
    ensures { IfOk result (λ gain. IsGainAt covers.now (numbers nets.now) divisor.now gain) }
{
    let mut total: u128 = 0;
    for net in nets {
        total += saving_of(covers[net.0 as usize].as_slice(), divisor)?;
    }
    Ok(total)
}

/// The net of these literals that the fewest tables read.
fn rarest(net: &Network, literals: &[Lit]) -> NetId
    requires some { 0 < length literals.now }
    requires held { All (AreHeld net.now.nets) literals.now }
    ensures on { IsOneOf IsLiteralOn literals.now result.0 }
    ensures held { IsTrue (is_held net.now.nets result.0) }
{
    let mut best = literals[0].net();
    for literal in literals {
        if net.readers(literal.net()).len() < net.readers(best).len() {
            best = literal.net();
        }
    }
    best
}

/// What adding the divisor and dividing all tables by it saves, and 0 where that is nothing: the tables that read the net are
/// those that it may save in.
fn saved_by(
    net: &Network,
    covers: &[Items<Part>],
    key: NetId,
    divisor: &[Cube],
) -> Result<u128, Memory>
    requires covers { covers.now ≡ map covers_at net.now.nets }
    requires ready { All IsReady covers.now }
    requires divisor { IsDivisorFor net.now.nets divisor.now }
    requires key { IsOn divisor.now key.0 }
    requires held { IsTrue (is_held net.now.nets key.0) }
    ensures { IfOk result (λ saved. IsSaved covers.now divisor.now saved) }
{
    net.few();
    let gain = gain_of(covers, net.readers(key), divisor)?;
    Ok(gain.saturating_sub(literals(divisor)))
}

/// Works out what the candidate saves, unless that is known and no table changed since that reads its net.
fn refresh(
    net: &Network,
    covers: &[Items<Part>],
    changed: &[u64],
    now: u64,
    candidate: &mut Candidate,
) -> Result<(), Memory>
    requires covers { covers.now ≡ map covers_at net.now.nets }
    requires ready { All IsReady covers.now }
    requires divisor { IsDivisorFor net.now.nets candidate.old.kernel.cubes }
    requires right { IsRight covers.now changed.now now candidate.old }
    ensures kernel { candidate.new.kernel ≡ candidate.old.kernel }
    ensures table { candidate.new.table ≡ candidate.old.table }
    ensures right { IsRight covers.now changed.now now candidate.new }
    ensures known { OnOk result (IsKnown covers.now candidate.new) }
{
    net.well_formed();
    if stamp_of(changed, candidate.key) < candidate.seen {
        return Ok(());
    }
    let divisor = candidate.kernel.cubes.as_slice();
    let key = rarest(net, divisor[0].lits());
    let saved = saved_by(net, covers, key, divisor)?;
    candidate.key = key;
    candidate.seen = now;
    candidate.saved = saved;
    Ok(())
}

/// Works out what each of the candidates saves.
pub fn refresh_all(
    net: &Network,
    covers: &[Items<Part>],
    changed: &[u64],
    now: u64,
    candidates: &mut [Candidate],
) -> Result<(), Memory>
    requires covers { covers.now ≡ map covers_at net.now.nets }
    requires ready { All IsReady covers.now }
    requires divisors { All (λ c. IsDivisorFor net.now.nets c.kernel.cubes) candidates.old }
    requires right { All (IsRight covers.now changed.now now) candidates.old }
    ensures same { map standing candidates.new ≡ map standing candidates.old }
    ensures right { All (IsRight covers.now changed.now now) candidates.new }
    ensures known { OnOk result (All (IsKnown covers.now) candidates.new) }
{
    for candidate in candidates.iter_mut() {
        refresh(net, covers, changed, now, candidate)?;
    }
    Ok(())
}
