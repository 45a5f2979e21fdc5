//! The names of nets in the whole.
ghost use Rattle.std.specs.Prelude.{◌≡◌, ◌∷◌, ◌++◌, [], All, length, IfOk, OnOk};
ghost use Rattle.std.specs.List.{flat_map};
ghost use Rattle.mv_base.specs.declared.limits.TheConstants.{MAX_FLAT_NETS as most_nets};
ghost use Rattle.mv_fault.specs.Tells.{TellsFirst};
ghost use Rattle.mv_unfold.specs.Locals.{IsSpan, cut};
ghost use Rattle.mv_unfold.specs.Named.{home_fault, rest_faults, under};

use crate::spans::Span;
use mv_base::{MAX_FLAT_NAME_BYTES, MAX_FLAT_NETS, Memory, Name, NameSet};
use mv_fault::{FlatFault, Which};
use std::alloc::Global;

/// Adds the nets of these spans under a path, up to the first whose name is one too many, too long, or that of an earlier net.
pub fn add_spans(
    alloc: Global,
    homes: &mut NameSet,
    path: &[u8],
    nets: &[Name],
    spans: &[Span],
) -> Result<(), FlatFault>
    requires { All (IsSpan (length nets.now)) spans.now }
    ensures faults { TellsFirst FlatFault.Memory result
        (rest_faults most_nets homes.old (under path.now (flat_map (cut nets.now) spans.now))) }
    ensures added { OnOk result
        (homes.new ≡ homes.old ++ under path.now (flat_map (cut nets.now) spans.now)) }
{
    for span in spans {
        add_names(alloc, homes, path, &nets[span.start..span.end])?;
    }
    Ok(())
}

/// Adds these nets under a path, up to the first whose name is one too many, too long, or that of an earlier net.
fn add_names(
    alloc: Global,
    homes: &mut NameSet,
    path: &[u8],
    nets: &[Name],
) -> Result<(), FlatFault>
    ensures faults { TellsFirst FlatFault.Memory result
        (rest_faults most_nets homes.old (under path.now nets.now)) }
    ensures added { OnOk result (homes.new ≡ homes.old ++ under path.now nets.now) }
{
    for net in nets {
        add_home(homes, name_under(alloc, path, net)?)?;
    }
    Ok(())
}

/// Adds the name, unless it is one too many, too long, or that of an earlier net.
fn add_home(homes: &mut NameSet, name: Name) -> Result<(), FlatFault>
    ensures faults { TellsFirst FlatFault.Memory result (home_fault most_nets homes.old name) }
    ensures added { OnOk result (homes.new ≡ homes.old ++ name ∷ []) }
{
    if homes.len() as u64 >= MAX_FLAT_NETS {
        return Err(FlatFault::Limit {
            which: Which::Nets,
            number: MAX_FLAT_NETS + 1,
        });
    }
    let size = name.bytes().len() as u64;
    if size > MAX_FLAT_NAME_BYTES {
        return Err(FlatFault::Limit {
            which: Which::NetName,
            number: size,
        });
    }
    if !homes.add(name.copy()?)? {
        return Err(FlatFault::NameClash { net: name });
    }
    Ok(())
}

/// The name of a net under a path. The root has none before its names, and these are shared.
pub fn name_under(alloc: Global, path: &[u8], net: &Name) -> Result<Name, Memory>
    ensures { IfOk result (λ name. name ≡ path.now ++ net.now) }
{
    if path.is_empty() {
        return net.copy();
    }
    let mut bytes = Vec::from_slice(alloc, path)?;
    bytes.extend_from_slice(net.bytes())?;
    Name::new(alloc, bytes.as_slice())
}
