//! Models that are seen to be sound while their nets get numbers: each column is looked up once, and no net but the driven ones
//! is gathered.
ghost use Rattle.std.specs.Prelude.{◌≡◌, ◌≤◌, All, length, true, IfOk, IfSome};
ghost use Rattle.std.specs.Bool.{OnTrue};
ghost use Rattle.std.specs.List.{list_all};
ghost use Rattle.mv_base.specs.declared.limits.TheConstants.{MAX_FLAT_NETS};
ghost use Rattle.mv_graph.specs.Above.{IsAcyclic};
ghost use Rattle.mv_graph.specs.Orders.{IsSortedBy};
ghost use Rattle.mv_design.specs.Nets.{drivers};
ghost use Rattle.mv_acyclic.specs.Columns.{columns_by_net};
ghost use Rattle.mv_acyclic.specs.Glance.{AreApartDrivers, AreOthersKnown, IsKnownSound, are_known, columns_known, input_known, is_short};
ghost use Rattle.mv_acyclic.specs.Sound.{reads, HasResetsOfLatches, IsDrivenOnce, StandsAlone};

use crate::Numbers;
use crate::alone::check_alone;
use crate::columns::known_columns;
use crate::drivers::add_drivers;
use crate::resets::check_resets;
use mv_base::{Items, MAX_FLAT_NAME_BYTES, MAX_FLAT_NETS, Memory, Name, NameSet, NetId};
use mv_design::{FileLatch, FileModel, FileTable};
use mv_graph::sorted;
use std::alloc::Global;

/// The driven nets of a model that is sound and within the limits. Where there are none nothing is said: what is wrong with a
/// model is told by others, who look at all its names for that.
pub fn sound(alloc: Global, model: &FileModel) -> Result<Option<Numbers>, Memory>
    ensures { IfOk result (λ found. IfSome found (IsKnownSound model.now)) }
{
    let Some(numbers) = apart_drivers(alloc, model)? else {
        return Ok(None);
    };
    if !are_others_known(&numbers, model) || !are_resets_right(alloc, model) {
        return Ok(None);
    }
    let Some(columns) = known_columns(alloc, &numbers, model)? else {
        return Ok(None);
    };
    if !stands(alloc, model, &numbers, columns.as_slice())? {
        return Ok(None);
    }
    Ok(Some(numbers))
}

/// Whether no net is above itself, and no latch above a reset value.
fn stands(
    alloc: Global,
    model: &FileModel,
    numbers: &Numbers,
    columns: &[Items<NetId>],
) -> Result<bool, Memory>
    requires once { IsDrivenOnce model.now }
    requires numbers { numbers.now ≡ drivers model.now }
    requires few { length numbers.now ≤ MAX_FLAT_NETS }
    requires columns { columns.now ≡ columns_by_net (drivers model.now) model.now }
    ensures acyclic { IfOk result (λ yes. OnTrue yes (IsAcyclic (reads model.now))) }
    ensures alone { IfOk result
        (λ yes. OnTrue yes (All (StandsAlone model.now) model.now.resets)) }
{
    let Some(order) = sorted(alloc, columns)? else {
        return Ok(false);
    };
    Ok(are_alone(alloc, model, numbers, columns, order.as_slice()))
}

/// Whether no latch is above a reset value, where the nets stand in this order.
fn are_alone(
    alloc: Global,
    model: &FileModel,
    numbers: &Numbers,
    columns: &[Items<NetId>],
    order: &[NetId],
) -> bool
    requires once { IsDrivenOnce model.now }
    requires numbers { numbers.now ≡ drivers model.now }
    requires few { length numbers.now ≤ MAX_FLAT_NETS }
    requires columns { columns.now ≡ columns_by_net (drivers model.now) model.now }
    requires order { IsSortedBy columns.now order.now }
    ensures { OnTrue result (All (StandsAlone model.now) model.now.resets) }
{
    check_alone(alloc, model, numbers, columns, order).is_ok()
}

/// Whether each reset table has its own latch.
fn are_resets_right(alloc: Global, model: &FileModel) -> bool
    ensures { OnTrue result (HasResetsOfLatches model.now) }
{
    match check_resets(alloc, model) {
        Ok(()) => true,
        Err(_fault) => false,
    }
}

/// The driven nets of the model, if none is driven twice, and they pass no limit.
fn apart_drivers(alloc: Global, model: &FileModel) -> Result<Option<Numbers>, Memory>
    ensures { IfOk result (λ found. IfSome found (AreApartDrivers model.now)) }
{
    let Some(count) = count_drivers(model) else {
        return Ok(None);
    };
    if count as u64 > MAX_FLAT_NETS {
        return Ok(None);
    }
    let mut names = NameSet::with_room(alloc, count)?;
    add_drivers(&mut names, model)?;
    names.distinct();
    if names.len() < count || !are_short(names.as_slice()) {
        return Ok(None);
    }
    Ok(Some(Numbers::of_names(names)))
}

/// How many drivers there are.
fn count_drivers(model: &FileModel) -> Option<usize>
    ensures { IfSome result (λ count. count ≡ length (drivers model.now)) }
{
    let mut count = model.inputs.len().checked_add(model.latches.len())?;
    for table in model.tables.as_slice() {
        count = count.checked_add(table.outputs.len())?;
    }
    Some(count)
}

/// Whether none of the names is too long.
fn are_short(names: &[Name]) -> bool
    ensures { OnTrue result (list_all is_short names.now ≡ true) }
{
    for name in names {
        if name.bytes().len() as u64 > MAX_FLAT_NAME_BYTES {
            return false;
        }
    }
    true
}

/// Whether these are the names of all nets that the model names but as columns of tables.
fn are_others_known(numbers: &Numbers, model: &FileModel) -> bool
    ensures { OnTrue result (AreOthersKnown numbers.now model.now) }
{
    are_known(numbers, model.outputs.as_slice())
        && are_inputs_known(numbers, model.latches.as_slice())
        && are_resets_known(numbers, model.resets.as_slice())
}

/// Whether all of the nets have numbers.
fn are_known(numbers: &Numbers, nets: &[Name]) -> bool
    ensures { OnTrue result (are_known numbers.now nets.now ≡ true) }
{
    for net in nets {
        if !numbers.has(net) {
            return false;
        }
    }
    true
}

/// Whether all inputs of the latches have numbers.
fn are_inputs_known(numbers: &Numbers, latches: &[FileLatch]) -> bool
    ensures { OnTrue result
        (list_all (input_known numbers.now) latches.now ≡ true) }
{
    for latch in latches {
        if !numbers.has(&latch.input) {
            return false;
        }
    }
    true
}

/// Whether all columns of the reset tables have numbers.
fn are_resets_known(numbers: &Numbers, resets: &[FileTable]) -> bool
    ensures { OnTrue result (list_all (columns_known numbers.now) resets.now ≡ true) }
{
    for reset in resets {
        if !are_known(numbers, reset.inputs.as_slice())
            || !are_known(numbers, reset.outputs.as_slice())
        {
            return false;
        }
    }
    true
}
