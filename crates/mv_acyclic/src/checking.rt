ghost use Rattle.std.specs.Prelude.{◌≡◌, ◌≤◌, All, length, IfOk, IfErr, OnOk};
ghost use Rattle.mv_base.specs.declared.limits.TheConstants.{MAX_FLAT_NETS};
ghost use Rattle.mv_graph.specs.Above.{IsAcyclic};
ghost use Rattle.mv_design.specs.Nets.{drivers};
ghost use Rattle.mv_acyclic.specs.Sound.{reads, AreNetsOf, IsDrivenOnce, StandsAlone, TellsAbove};
ghost use Rattle.mv_acyclic.specs.Columns.{columns_by_net};

use crate::Numbers;
use crate::alone::check_alone;
use crate::columns::columns;
use crate::drivers::driven;
use mv_base::{Items, MAX_FLAT_NETS, Name, NetId};
use mv_cycles::first_turning;
use mv_design::FileModel;
use mv_fault::FlatFault;
use mv_graph::sorted;
use std::alloc::Global;

/// The driven nets of a model whose nets are driven once each, if no net is above itself, and no latch above a reset value. If
/// it isn't so, the first of these nets that is on a cycle; where there is none, the first reset value with a latch above it.
/// `nets` are the nets of the model in the order in which they are looked at.
pub fn check(alloc: Global, model: &FileModel, nets: &[Name]) -> Result<Numbers, FlatFault>
    requires once { IsDrivenOnce model.now }
    requires nets { AreNetsOf model.now nets.now }
    requires few { length nets.now ≤ MAX_FLAT_NETS }
    ensures driven { IfOk result (λ driven. driven ≡ drivers model.now) }
    ensures acyclic { OnOk result (IsAcyclic (reads model.now)) }
    ensures alone { OnOk result (All (StandsAlone model.now) model.now.resets) }
    ensures fault { IfErr result (λ f. TellsAbove nets.now model.now f) }
{
    let driven = Numbers::of_names(driven(alloc, model, nets.len())?);
    check_above(alloc, model, nets, &driven)?;
    Ok(driven)
}

/// Tells the first of the nets that is on a cycle, or the first reset value with a latch above it.
fn check_above(
    alloc: Global,
    model: &FileModel,
    nets: &[Name],
    numbers: &Numbers,
) -> Result<(), FlatFault>
    requires once { IsDrivenOnce model.now }
    requires nets { AreNetsOf model.now nets.now }
    requires few_nets { length nets.now ≤ MAX_FLAT_NETS }
    requires numbers { numbers.now ≡ drivers model.now }
    requires few { length numbers.now ≤ MAX_FLAT_NETS }
    ensures acyclic { OnOk result (IsAcyclic (reads model.now)) }
    ensures alone { OnOk result (All (StandsAlone model.now) model.now.resets) }
    ensures fault { IfErr result (λ f. TellsAbove nets.now model.now f) }
{
    let columns = columns(alloc, numbers, model)?;
    match sorted(alloc, columns.as_slice())? {
        Some(order) => check_alone(alloc, model, numbers, columns.as_slice(), order.as_slice()),
        None => check_turning(alloc, model, nets, numbers, columns.as_slice()),
    }
}

/// Tells the first of the nets that is on a cycle.
fn check_turning(
    alloc: Global,
    model: &FileModel,
    nets: &[Name],
    numbers: &Numbers,
    columns: &[Items<NetId>],
) -> Result<(), FlatFault>
    requires once { IsDrivenOnce model.now }
    requires nets { AreNetsOf model.now nets.now }
    requires few_nets { length nets.now ≤ MAX_FLAT_NETS }
    requires numbers { numbers.now ≡ drivers model.now }
    requires few { length numbers.now ≤ MAX_FLAT_NETS }
    requires columns { columns.now ≡ columns_by_net (drivers model.now) model.now }
    ensures acyclic { OnOk result (IsAcyclic (reads model.now)) }
    ensures fault { IfErr result (λ f. TellsAbove nets.now model.now f) }
{
    let order = numbers.list(alloc, nets)?;
    match first_turning(alloc, columns, order.as_slice())? {
        None => Ok(()),
        Some(place) => Err(FlatFault::Cycle {
            net: nets[place].copy()?,
        }),
    }
}
