//! Designs with instances as one model.
ghost use Rattle.std.specs.Prelude.{◌≡◌, ◌<◌, ◌⊎◌, length, IfOk, IfErr, OnOk};
ghost use Rattle.mv_fault.specs.Tells.{TellsFirst};
ghost use Rattle.mv_design.specs.Nets.{root_of};
ghost use Rattle.mv_tree.specs.Places.{homes, places};
ghost use Rattle.mv_tree.specs.Unfolded.{joined, unfolded};
ghost use Rattle.mv_walk.specs.Openings.{AreOpened};
ghost use Rattle.mv_unfold.specs.Whole.{HasGoodNets, HasShortNames, HasWholeFault, whole_faults};

use crate::checking::check_layout;
use crate::joined::joined;
use crate::layout::Layout;
use crate::made::Whole;
use mv_base::{Items, Name};
use mv_design::{Design, FileModel};
use mv_fault::FlatFault;
use mv_walk::Opened;
use std::alloc::Global;

/// The one model over all nets that a design with these instances is, and the names of these nets, or the first fault of its nets
/// and reset tables, but for what is above what: a limit is passed, or two nets have one name; a net is driven twice; nothing
/// drives a net; a reset table has no latch, or isn't the only one of its latch. A design without instances gives its root away;
/// else the model is made anew, but for the rows of its tables, and the design is let go. The time grows with the design, with
/// its instances, and with what the model has.
pub fn whole(alloc: Global, design: Design, opened: &[Opened]) -> Result<Whole, FlatFault>
    requires rooted { design.root < length design.models }
    requires opened { AreOpened design opened.now }
    ensures model { (h : AreOpened design opened.now)
        → IfOk result (λ w. w.model ≡ unfolded (root_of design) h.tree) }
    ensures nets { (h : AreOpened design opened.now)
        → IfOk result (λ w. w.nets ≡ homes (places (root_of design) h.tree)) }
    ensures good { (h : AreOpened design opened.now)
        → OnOk result (HasGoodNets (root_of design) h.tree) }
    ensures short { (h : AreOpened design opened.now)
        → OnOk result (HasShortNames (root_of design) h.tree) }
    ensures fault { IfErr result (λ f. (f ≡ FlatFault.Memory) ⊎ HasWholeFault design f) }
{
    built(alloc, design, opened)
}

/// The one model and its nets, or the first fault.
fn built(alloc: Global, design: Design, opened: &[Opened]) -> Result<Whole, FlatFault>
    requires rooted { design.root < length design.models }
    requires opened { AreOpened design opened.now }
    ensures faults { (h : AreOpened design opened.now)
        → TellsFirst FlatFault.Memory result (whole_faults (root_of design) h.tree) }
    ensures model { (h : AreOpened design opened.now)
        → IfOk result (λ w. w.model ≡ unfolded (root_of design) h.tree) }
    ensures nets { (h : AreOpened design opened.now)
        → IfOk result (λ w. w.nets ≡ homes (places (root_of design) h.tree)) }
{
    if opened.is_empty() {
        let nets = checked(alloc, &design, opened)?;
        return Ok(Whole {
            model: into_root(design),
            nets,
        });
    }
    joined_whole(alloc, &design, opened)
}

/// The names of all nets, or the first fault.
fn checked(alloc: Global, design: &Design, opened: &[Opened]) -> Result<Items<Name>, FlatFault>
    requires rooted { design.now.root < length design.now.models }
    requires opened { AreOpened design.now opened.now }
    ensures faults { (h : AreOpened design.now opened.now)
        → TellsFirst FlatFault.Memory result (whole_faults (root_of design.now) h.tree) }
    ensures nets { (h : AreOpened design.now opened.now)
        → IfOk result (λ nets. nets ≡ homes (places (root_of design.now) h.tree)) }
{
    let layout = Layout::of(alloc, design, opened)?;
    check_layout(alloc, &layout)
}

/// The root with what stands in all places, and its nets, or the first fault.
fn joined_whole(alloc: Global, design: &Design, opened: &[Opened]) -> Result<Whole, FlatFault>
    requires rooted { design.now.root < length design.now.models }
    requires opened { AreOpened design.now opened.now }
    ensures faults { (h : AreOpened design.now opened.now)
        → TellsFirst FlatFault.Memory result (whole_faults (root_of design.now) h.tree) }
    ensures model { (h : AreOpened design.now opened.now)
        → IfOk result (λ w. w.model
        ≡ joined (root_of design.now) (places (root_of design.now) h.tree)) }
    ensures nets { (h : AreOpened design.now opened.now)
        → IfOk result (λ w. w.nets ≡ homes (places (root_of design.now) h.tree)) }
{
    let layout = Layout::of(alloc, design, opened)?;
    let nets = check_layout(alloc, &layout)?;
    let model = joined(alloc, &layout)?;
    Ok(Whole { model, nets })
}

/// The root of the design, which is let go.
pub fn into_root(design: Design) -> FileModel
    requires { design.root < length design.models }
    ensures { result ≡ root_of design }
{
    let mut models = design.models.into_vec();
    models.swap_remove(design.root as usize)
}
