//! Names that are gathered, each once, in the order in which they come.
ghost use Rattle.std.specs.Prelude.{◌≡◌, OnOk, OnErr};
ghost use Rattle.mv_acyclic.specs.Driving.{with_name, with_named, with_names};

use crate::naming::Naming;
use mv_base::{Memory, Name, NameSet};

/// Adds the nets that commands name and that aren't there yet.
pub fn add_named(nets: &mut NameSet, namings: &[Naming<'_>]) -> Result<(), Memory>
    ensures { OnOk result (nets.new ≡ with_named nets.old namings.now) }
{
    for naming in namings {
        let (inputs, outputs) = naming.parts();
        add_nets(nets, inputs)?;
        add_nets(nets, outputs)?;
    }
    Ok(())
}

/// Adds the names that aren't there yet.
pub fn add_nets(names: &mut NameSet, nets: &[Name]) -> Result<(), Memory>
    ensures { OnOk result (names.new ≡ with_names names.old nets.now) }
{
    for net in nets {
        add_net(names, net)?;
    }
    Ok(())
}

/// Adds the name unless it is there. Most names come again, so it is looked up before it is copied. On an error the names are
/// as before.
pub fn add_net(names: &mut NameSet, net: &Name) -> Result<(), Memory>
    ensures ok { OnOk result (names.new ≡ with_name names.old net.now) }
    ensures err { OnErr result (names.new ≡ names.old) }
{
    if names.contains(net) {
        return Ok(());
    }
    let copied = net.copy()?;
    match names.add(copied) {
        Ok(_new) => Ok(()),
        Err(memory) => Err(memory),
    }
}
