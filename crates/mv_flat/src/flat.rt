ghost use Rattle.std.specs.Prelude.{◌≡◌, ◌<◌, ◌≤◌, [], length, All, IfOk, IfErr, IfSome, OnOk};
ghost use Rattle.mv_base.specs.declared.limits.TheConstants.{MAX_FLAT_NETS, MAX_NETS};
ghost use Rattle.mv_design.specs.Nets.{drivers};
ghost use Rattle.mv_flat.specs.Places.{net_places};
ghost use Rattle.mv_design.specs.Proper.{IsLawful, IsProper};
ghost use Rattle.mv_flat.specs.Built.{IsBuilt};
ghost use Rattle.mv_flat.specs.Gathered.{counts_of};
ghost use Rattle.mv_tree.specs.Unfolded.{tables_in};
ghost use Rattle.mv_walk.specs.Openings.{AreOpened};
ghost use Rattle.mv_unfold.specs.Placed.{places_by};
ghost use Rattle.mv_flat.specs.Roots.{IsSoundRoot};
ghost use Rattle.mv_flat.specs.Flat.{HasSmallNetwork, IsFlat, IsRefusedDesign};
ghost use Rattle.mv_resets.specs.NetModels.{HasSoundNets, IsNetModel};
ghost use Rattle.mv_resets.specs.Resets.{all_tables, with_reset_nets};
ghost use Rattle.mv_acyclic.specs.Sound.{IsSoundModel, IsWithinLimits};
ghost use Rattle.mv_flat.specs.Placed.{ArePlaced};
ghost use Rattle.mv_flat.specs.Shared.{IsFrom};
ghost use Rattle.mv_flat.specs.Size.{FitsLimits};
ghost use Rattle.mv_flat.specs.Sized.{TellsLimit};

use crate::latches::flat_latches;
use crate::numbers::{NumberedNets, numbered};
use crate::shared::SharedTables;
use crate::tables::nets;
use mv_acyclic::{Numbers, check, sound};
use mv_base::{Items, Memory};
use mv_design::{Design, FileModel};
use mv_fault::FlatFault;
use mv_net::{NetParts, Network};
use mv_resets::with_reset_nets;
use mv_unfold::{Whole, into_root, whole};
use mv_walk::{Opened, walk};
use std::alloc::Global;

/// The network of a sound design, over all nets of its instances: a net for each input of the root and for each latch, and for
/// each table and reset table a net for its output, and before that one for the mark, if its default needs one. The fault is the
/// first of the design's instances, nets and reset tables, and where there is none, the first limit that the network passes, table
/// by table. It works on a copy of the design, which `flatten_owned` spares.
pub fn flatten(alloc: Global, design: &Design) -> Result<Network, FlatFault>
    requires { IsProper design.now }
    ensures ok { IfOk result (λ net. IsFlat net design.now) }
    ensures fault { IfErr result (IsRefusedDesign design.now) }
{
    flatten_owned(alloc, design.copy()?)
}

/// The same for a design that isn't needed any more: the design is let go as soon as its instances are one model, and each table
/// of this model as soon as its nets are made, so that the whole model never stands in memory beside the whole network. A sound
/// design without instances is known by its drivers and columns alone; all names of another one are gathered.
#[tactic(auto, using(crate::proofs::Refusals::refusals))]
pub fn flatten_owned(alloc: Global, design: Design) -> Result<Network, FlatFault>
    requires { IsProper design }
    ensures ok { IfOk result (λ net. IsFlat net design) }
    ensures fault { IfErr result (IsRefusedDesign design) }
{
    let opened = walk(alloc, &design)?;
    let shared = SharedTables::of(alloc, &design, opened.as_slice())?;
    match sound_root(alloc, &design, opened.as_slice())? {
        Some(driven) => network(alloc, into_root(design), driven, shared),
        None => of_whole(alloc, design, opened, shared),
    }
}

/// The driven nets of the root of a design without instances, if it is sound and within the limits.
fn sound_root(alloc: Global, design: &Design, opened: &[Opened]) -> Result<Option<Numbers>, Memory>
    requires { design.now.root < length design.now.models }
    ensures { IfOk result
        (λ found. IfSome found (IsSoundRoot design.now opened.now)) }
{
    if opened.is_empty() {
        return sound(alloc, &design.models.as_slice()[design.root as usize]);
    }
    Ok(None)
}

/// The network of a design with these instances, or the first fault of its instances, nets and reset tables, or else the first
/// limit that the network passes.
#[tactic(auto, using(crate::proofs::Refusals::refusals))]
fn of_whole(
    alloc: Global,
    design: Design,
    opened: Items<Opened>,
    shared: SharedTables,
) -> Result<Network, FlatFault>
    requires proper { IsProper design }
    requires opened { AreOpened design opened }
    requires known { All (IsFrom shared) (tables_in 0 (places_by design opened)) }
    requires none { opened ≡ [] → shared.origins.items ≡ [] }
    ensures ok { IfOk result (λ net. IsFlat net design) }
    ensures fault { IfErr result (IsRefusedDesign design) }
{
    let Whole { model, nets } = whole(alloc, design, opened.as_slice())?;
    drop(opened);
    let driven = check(alloc, &model, nets.as_slice())?;
    drop(nets);
    network(alloc, model, driven, shared)
}

/// The network of a sound model whose nets are within the limits, where `driven` are its driven nets. The fault is the first limit
/// that the network passes, table by table.
#[tactic(auto, using(crate::proofs::Refusals::told_by))]
fn network(
    alloc: Global,
    model: FileModel,
    driven: Numbers,
    mut shared: SharedTables,
) -> Result<Network, FlatFault>
    requires lawful { IsLawful model }
    requires sound { IsSoundModel model }
    requires limits { IsWithinLimits model }
    requires driven { driven ≡ drivers model }
    requires shared { All (IsFrom shared) (all_tables model) }
    ensures built { IfOk result (λ net. IsBuilt (with_reset_nets model) net) }
    ensures fits { OnOk result (HasSmallNetwork model) }
    ensures fault { IfErr result (TellsLimit (length (drivers model)) (with_reset_nets model)) }
{
    let model = with_reset_nets(alloc, model)?;
    let NumberedNets { names, counts } = numbered(alloc, &model, &driven, &mut shared)?;
    let file_nets = driven.len() as u64;
    drop(driven);
    let parts = built(
        alloc,
        model,
        &names,
        counts.as_slice(),
        file_nets,
        &mut shared,
    )?;
    drop(names);
    drop(counts);
    Ok(Network::make(alloc, parts)?)
}

/// The parts of the network of a model with sound nets, of as many nets as its file has.
#[tactic(auto, using(crate::proofs::Behinds::placed))]
fn built(
    alloc: Global,
    model: FileModel,
    names: &Numbers,
    counts: &[u16],
    file_nets: u64,
    shared: &mut SharedTables,
) -> Result<NetParts, FlatFault>
    requires proper { IsNetModel model }
    requires sound { HasSoundNets model }
    requires names { names.now ≡ net_places model }
    requires counts { counts.now ≡ counts_of model.decls names.now }
    requires few { length names.now ≤ MAX_NETS }
    requires few_nets { file_nets ≤ MAX_FLAT_NETS }
    requires shared { All (IsFrom shared.old) model.tables }
    ensures built { IfOk result (λ net. IsBuilt model net) }
    ensures fits { OnOk result (FitsLimits file_nets model) }
    ensures fault { IfErr result (TellsLimit file_nets model) }
{
    parts(alloc, model, names, counts, file_nets, shared)
}

/// The parts of the network of a model whose nets have numbers.
fn parts(
    alloc: Global,
    model: FileModel,
    names: &Numbers,
    counts: &[u16],
    file_nets: u64,
    shared: &mut SharedTables,
) -> Result<NetParts, FlatFault>
    requires proper { IsNetModel model }
    requires placed { ArePlaced model names.now }
    requires counts { counts.now ≡ counts_of model.decls names.now }
    requires few_nets { file_nets ≤ MAX_FLAT_NETS }
    requires shared { All (IsFrom shared.old) model.tables }
    ensures built { IfOk result (λ net. IsBuilt model net) }
    ensures fits { OnOk result (FitsLimits file_nets model) }
    ensures fault { IfErr result (TellsLimit file_nets model) }
{
    Ok(NetParts {
        root: model.name.copy()?,
        inputs: names.list(alloc, model.inputs.as_slice())?,
        outputs: names.list(alloc, model.outputs.as_slice())?,
        latches: flat_latches(alloc, names, model.latches.as_slice())?,
        nets: nets(alloc, model, names, counts, file_nets, shared)?,
    })
}
