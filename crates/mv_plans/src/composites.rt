ghost use Rattle.std.specs.Prelude.{◌≡◌, ◌≤◌, ◌^◌, true, IfOk, IfErr};
ghost use Rattle.mv_net.specs.Nets.{reads_in};
ghost use Rattle.mv_plans.specs.Collapsing.{IsInnerOf};
ghost use Rattle.mv_plans.specs.Composites.{HasCompositeLiterals, HasWideComposite};

use mv_base::NetId;
use mv_composite::{Inner, compose};
use mv_cover::CoverStop;
use mv_net::Network;
use mv_readers::table_of;
use std::alloc::Global;

/// The literals of the composite of a reader's table with the net: those that the reader has once the
/// net has gone into it. It is Wide where that composite is too wide. It changes nothing, and costs one
/// composite.
pub fn composite_literals(
    alloc: Global,
    net: &Network,
    inner: &Inner,
    reader: NetId,
) -> Result<u128, CoverStop>
    requires known { IsInnerOf net.now.nets inner.now }
    requires reader { reads_in net.now.nets reader.0 inner.now.net.0 ≡ true }
    ensures counted { IfOk result
        (λ count. HasCompositeLiterals net.now.nets inner.now reader.0 count) }
    ensures wide { IfErr result (λ stop. stop ≡ CoverStop.Wide
        → HasWideComposite net.now.nets inner.now reader.0) }
    ensures few { IfOk result (λ count. count ≤ 2 ^ 96) }
{
    net.well_formed();
    match compose(alloc, net.counts(), inner, table_of(net, reader)) {
        Ok(composite) => Ok(composite.literals()),
        Err(stop) => Err(stop),
    }
}
