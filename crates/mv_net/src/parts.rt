ghost use Rattle.std.specs.Prelude.{◌≡◌, IfOk};

use mv_base::{Items, Memory, Name, NetId};
use mv_cover::Cover;

/// What drives a net: the outside, a latch, a table or a reset table.
#[derive(Clone, Copy, Debug, PartialEq, Eq)]
pub enum Kind {
    Input,
    Latch,
    Table,
    Reset,
}

/// A net. `value_names` is empty exactly where the names are the numbers from 0.
#[derive(Drop)]
pub struct FlatNet {
    pub name: Name,
    pub values: u16,
    pub value_names: Items<Name>,
    pub kind: Kind,
    pub table: Option<Cover>,
}

/// A latch: its input, its output, and its reset net if a reset table is given.
#[derive(Clone, Copy, Debug, PartialEq, Eq)]
pub struct FlatLatch {
    pub input: NetId,
    pub output: NetId,
    pub reset: Option<NetId>,
}

/// A whole network. The net at place k has the number k, and None is a number that isn't held.
#[derive(Drop)]
pub struct NetParts {
    pub root: Name,
    pub inputs: Items<NetId>,
    pub outputs: Items<NetId>,
    pub latches: Items<FlatLatch>,
    pub nets: Items<Option<FlatNet>>,
}

impl FlatNet {
    /// An equal net.
    pub fn copy(&self) -> Result<FlatNet, Memory>
        ensures { IfOk result (λ net. net ≡ self.now) }
    {
        let table = copied_table(&self.table)?;
        Ok(FlatNet {
            name: self.name.copy()?,
            values: self.values,
            value_names: self.value_names.copy_names()?,
            kind: self.kind,
            table,
        })
    }
}

impl NetParts {
    /// Equal parts.
    pub fn copy(&self) -> Result<NetParts, Memory>
        ensures { IfOk result (λ parts. parts ≡ self.now) }
    {
        Ok(NetParts {
            root: self.root.copy()?,
            inputs: self.inputs.copy()?,
            outputs: self.outputs.copy()?,
            latches: self.latches.copy()?,
            nets: copied_nets(&self.nets)?,
        })
    }
}

/// An equal table, if there is one.
fn copied_table(table: &Option<Cover>) -> Result<Option<Cover>, Memory>
    ensures { IfOk result (λ copy. copy ≡ table.now) }
{
    match table {
        Some(cover) => {
            let copy = cover.copy()?;
            Ok(Some(copy))
        }
        None => Ok(None),
    }
}

/// An equal net, if there is one.
fn copied_net(net: &Option<FlatNet>) -> Result<Option<FlatNet>, Memory>
    ensures { IfOk result (λ copy. copy ≡ net.now) }
{
    match net {
        Some(held) => {
            let copy = held.copy()?;
            Ok(Some(copy))
        }
        None => Ok(None),
    }
}

/// Equal nets, each at its number.
fn copied_nets(nets: &Items<Option<FlatNet>>) -> Result<Items<Option<FlatNet>>, Memory>
    ensures { IfOk result (λ copies. copies ≡ nets.now) }
{
    let mut copies = Items::new(nets.allocator());
    for net in nets.as_slice() {
        copies.push(copied_net(net)?)?;
    }
    Ok(copies)
}
