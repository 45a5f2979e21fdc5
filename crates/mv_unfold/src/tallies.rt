//! How often the nets of each model are driven: inner models before those round them.
ghost use Rattle.std.specs.Prelude.{◌≡◌, ◌<◌, length, replicate, None, IfOk, OnOk};
ghost use Rattle.std.specs.Option.{is_some};
ghost use Rattle.mv_base.specs.declared.limits.TheConstants.{MAX_DEPTH as deepest};
ghost use Rattle.mv_unfold.specs.Driven.{AreMore, AreTallies, HasInside, IsKnown};
ghost use Rattle.mv_unfold.specs.Laid.{IsLaid};

use crate::counts::counts_of;
use crate::layout::Layout;
use mv_base::{Items, MAX_DEPTH, Memory};
use std::alloc::Global;

/// The counts of the root and of all models that stand in it.
pub fn tallies(alloc: Global, layout: &Layout<'_>) -> Result<Items<Option<Items<u8>>>, Memory>
    requires laid { IsLaid layout.now }
    requires inside { HasInside layout.now.design.now deepest layout.now.design.now.root }
    ensures right { IfOk result (λ slots. AreTallies layout.now slots) }
    ensures known { IfOk result (λ slots. IsKnown slots layout.now.design.now.root) }
{
    let mut slots = unknown(alloc, layout.design.models.len())?;
    fill(
        alloc,
        layout,
        &mut slots,
        MAX_DEPTH as usize,
        layout.design.root as usize,
    )?;
    Ok(slots)
}

/// So many models, of which nothing is known.
fn unknown(alloc: Global, count: usize) -> Result<Items<Option<Items<u8>>>, Memory>
    ensures { IfOk result (λ slots. slots ≡ replicate count None) }
{
    let mut slots = Items::with_room(alloc, count)?;
    for at in 0..count {
        let _ = at;
        slots.push(None)?;
    }
    Ok(slots)
}

/// Fills in the counts of a model, and before them those of the models of its instances.
fn fill(
    alloc: Global,
    layout: &Layout<'_>,
    slots: &mut Items<Option<Items<u8>>>,
    levels: usize,
    model: usize,
) -> Result<(), Memory>
    requires laid { IsLaid layout.now }
    requires inside { HasInside layout.now.design.now levels model }
    requires model { model < length layout.now.design.now.models }
    requires right { AreTallies layout.now slots.old }
    ensures right { OnOk result (AreTallies layout.now slots.new) }
    ensures known { OnOk result (IsKnown slots.new model) }
    ensures more { OnOk result (AreMore slots.old slots.new) }
{
    if slots.as_slice()[model].is_some() {
        return Ok(());
    }
    let row = layout.commands.as_slice()[model].as_slice();
    for command in row {
        fill(alloc, layout, slots, levels - 1, command.model)?;
    }
    let nets = layout.nets.as_slice();
    let file = &layout.design.models.as_slice()[model];
    let local = &nets[model];
    local.distinct();
    let counts = counts_of(alloc, nets, slots.as_slice(), local, file, row)?;
    slots.replace(model, Some(counts));
    Ok(())
}
