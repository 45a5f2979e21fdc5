//! The nets of a network.
ghost use Rattle.std.specs.Prelude.{◌≡◌, ◌++◌, ◌∷◌, [], Some, IfOk, OnOk, None, map};
ghost use Rattle.mv_net.specs.declared.parts.Kind.TheVariants.{Input, Latch};
ghost use Rattle.mv_flat.specs.Built.{file_net, fresh_net, kind_of, output_nets};

use crate::values::kept_names;
use mv_base::{Items, Memory, Name};
use mv_cover::Cover;
use mv_decl::Declared;
use mv_design::FileLatch;
use mv_net::{FlatNet, Kind};
use std::alloc::Global;

/// A net of the model.
pub fn file_net(
    alloc: Global,
    decls: &Declared,
    kind: Kind,
    table: Option<Cover>,
    net: &Name,
) -> Result<FlatNet, Memory>
    ensures { IfOk result (λ made. Some made ≡ file_net decls.now kind table net.now) }
{
    let values = decls.values_of(net);
    Ok(FlatNet {
        name: net.copy()?,
        values: values.len() as u16,
        value_names: kept_names(alloc, values)?,
        kind,
        table,
    })
}

/// A net that is made.
pub fn fresh_net(alloc: Global, name: Name, values: u16, cover: Cover) -> FlatNet
    ensures { Some result ≡ fresh_net name (record { values = values; cover = cover }) }
{
    FlatNet {
        name,
        values,
        value_names: Items::new(alloc),
        kind: Kind::Table,
        table: Some(cover),
    }
}

/// Adds the nets of outputs with these covers.
pub fn put_outputs(
    nets: &mut Items<Option<FlatNet>>,
    alloc: Global,
    decls: &Declared,
    outputs: &[Name],
    covers: Items<Cover>,
) -> Result<(), Memory>
    ensures { OnOk result (nets.new ≡ nets.old ++ output_nets decls.now outputs.now covers) }
{
    for (output, cover) in outputs.iter().zip(covers.into_vec()) {
        put_output(nets, alloc, decls, output, cover)?;
    }
    Ok(())
}

/// Adds the net of an output with this cover.
pub fn put_output(
    nets: &mut Items<Option<FlatNet>>,
    alloc: Global,
    decls: &Declared,
    output: &Name,
    cover: Cover,
) -> Result<(), Memory>
    ensures { OnOk result
        (nets.new ≡ nets.old ++ file_net decls.now (kind_of output.now) (Some cover) output.now
        ∷ []) }
{
    let net = file_net(alloc, decls, kind_of(output), Some(cover), output)?;
    nets.push(Some(net))?;
    Ok(())
}

/// What the net of a table's output is: a reset net, where its name begins with a full stop.
pub fn kind_of(name: &Name) -> Kind
    ensures { result ≡ kind_of name.now }
{
    match name.bytes().first() {
        Some(b'.') => Kind::Reset,
        _ => Kind::Table,
    }
}

/// The nets that have no table: those of the inputs, and those of the outputs of the latches.
pub fn open_nets(
    alloc: Global,
    decls: &Declared,
    inputs: &[Name],
    latches: &[FileLatch],
) -> Result<Items<Option<FlatNet>>, Memory>
    ensures { IfOk result
        (λ nets. nets
        ≡ map (file_net decls.now Input None) inputs.now ++ map (file_net decls.now Latch None) (map (λ l. l.output) latches.now)) }
{
    let mut nets = Items::new(alloc);
    add_inputs(alloc, &mut nets, decls, inputs)?;
    add_states(alloc, &mut nets, decls, latches)?;
    Ok(nets)
}

/// Adds the nets of inputs.
fn add_inputs(
    alloc: Global,
    nets: &mut Items<Option<FlatNet>>,
    decls: &Declared,
    inputs: &[Name],
) -> Result<(), Memory>
    ensures { OnOk result (nets.new ≡ nets.old ++ map (file_net decls.now Input None) inputs.now) }
{
    for input in inputs {
        let net = file_net(alloc, decls, Kind::Input, None, input)?;
        nets.push(Some(net))?;
    }
    Ok(())
}

/// Adds the nets of the outputs of latches.
fn add_states(
    alloc: Global,
    nets: &mut Items<Option<FlatNet>>,
    decls: &Declared,
    latches: &[FileLatch],
) -> Result<(), Memory>
    ensures { OnOk result
        (nets.new ≡ nets.old
        ++ map (file_net decls.now Latch None) (map (λ l. l.output) latches.now)) }
{
    for latch in latches {
        let net = file_net(alloc, decls, Kind::Latch, None, &latch.output)?;
        nets.push(Some(net))?;
    }
    Ok(())
}
