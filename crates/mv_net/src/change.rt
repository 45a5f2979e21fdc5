ghost use Rattle.std.specs.Prelude.{◌≡◌, IfOk};

use mv_base::{Items, Memory, Name, NetId};
use mv_cover::Cover;

/// A net that comes: it has this table, and the numbers from 0 as the names of its values.
#[derive(Drop)]
pub struct NewNet {
    pub name: Name,
    pub values: u16,
    pub table: Cover,
}

/// Another table for a net.
#[derive(Drop)]
pub struct NewTable {
    pub net: NetId,
    pub table: Cover,
}

/// Another number of values for a net, whose names are then the numbers from 0.
#[derive(Clone, Copy, Debug, PartialEq, Eq)]
pub struct NewCount {
    pub net: NetId,
    pub values: u16,
}

/// A change of a network: nets that come, other tables, other numbers of values, and nets that go.
#[derive(Drop)]
pub struct Change {
    pub add: Items<NewNet>,
    pub set: Items<NewTable>,
    pub values: Items<NewCount>,
    pub gone: Items<NetId>,
}

impl NewNet {
    /// An equal net that comes.
    pub fn copy(&self) -> Result<NewNet, Memory>
        ensures { IfOk result (λ new. new ≡ self.now) }
    {
        Ok(NewNet {
            name: self.name.copy()?,
            values: self.values,
            table: self.table.copy()?,
        })
    }
}

impl NewTable {
    /// An equal table for a net.
    pub fn copy(&self) -> Result<NewTable, Memory>
        ensures { IfOk result (λ new. new ≡ self.now) }
    {
        Ok(NewTable {
            net: self.net,
            table: self.table.copy()?,
        })
    }
}

impl Change {
    /// An equal change.
    pub fn copy(&self) -> Result<Change, Memory>
        ensures { IfOk result (λ change. change ≡ self.now) }
    {
        Ok(Change {
            add: copied_new_nets(&self.add)?,
            set: copied_new_tables(&self.set)?,
            values: self.values.copy()?,
            gone: self.gone.copy()?,
        })
    }
}

/// Equal nets that come.
fn copied_new_nets(nets: &Items<NewNet>) -> Result<Items<NewNet>, Memory>
    ensures { IfOk result (λ copies. copies ≡ nets.now) }
{
    let mut copies = Items::new(nets.allocator());
    for net in nets.as_slice() {
        copies.push(net.copy()?)?;
    }
    Ok(copies)
}

/// Equal tables for nets.
fn copied_new_tables(tables: &Items<NewTable>) -> Result<Items<NewTable>, Memory>
    ensures { IfOk result (λ copies. copies ≡ tables.now) }
{
    let mut copies = Items::new(tables.allocator());
    for table in tables.as_slice() {
        copies.push(table.copy()?)?;
    }
    Ok(copies)
}
