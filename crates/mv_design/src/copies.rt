//! Equal lists of the parts of a design.
ghost use Rattle.std.specs.Prelude.{◌≡◌, IfOk};

use crate::design::{Bind, Decl, FileLatch, FileModel, Instance};
use crate::short::{Entries, Sets};
use crate::table::FileTable;
use mv_base::{Items, Memory, PackedSet};
use std::alloc::Global;

/// An equal list of sets.
pub fn copy_sets(alloc: Global, sets: &[PackedSet]) -> Result<Items<PackedSet>, Memory>
    ensures { IfOk result (λ c. c ≡ sets.now) }
{
    let mut copied = Items::with_room(alloc, sets.len())?;
    for set in sets {
        copied.push(set.copy()?)?;
    }
    Ok(copied)
}

/// These sets as a row keeps them.
pub fn short_sets(alloc: Global, sets: &[PackedSet]) -> Result<Sets, Memory>
    ensures { IfOk result (λ c. c ≡ sets.now) }
{
    let mut copied = Sets::with_room(alloc, sets.len())?;
    for set in sets {
        copied.push(alloc, set.copy()?)?;
    }
    Ok(copied)
}

/// An equal list of entries.
pub fn copy_entries(alloc: Global, entries: &Entries) -> Result<Entries, Memory>
    ensures { IfOk result (λ c. c ≡ entries.now) }
{
    let mut copied = Entries::with_room(alloc, entries.as_slice().len())?;
    for entry in entries.as_slice() {
        copied.push(alloc, entry.copy()?)?;
    }
    Ok(copied)
}

/// An equal list of tables.
pub fn copy_tables(tables: &Items<FileTable>) -> Result<Items<FileTable>, Memory>
    ensures { IfOk result (λ c. c ≡ tables.now) }
{
    let mut copied = Items::with_room(tables.allocator(), tables.len())?;
    for table in tables.as_slice() {
        copied.push(table.copy()?)?;
    }
    Ok(copied)
}

/// An equal list of declarations.
pub fn copy_decls(decls: &Items<Decl>) -> Result<Items<Decl>, Memory>
    ensures { IfOk result (λ c. c ≡ decls.now) }
{
    let mut copied = Items::with_room(decls.allocator(), decls.len())?;
    for decl in decls.as_slice() {
        copied.push(decl.copy()?)?;
    }
    Ok(copied)
}

/// An equal list of latches.
pub fn copy_latches(latches: &Items<FileLatch>) -> Result<Items<FileLatch>, Memory>
    ensures { IfOk result (λ c. c ≡ latches.now) }
{
    let mut copied = Items::with_room(latches.allocator(), latches.len())?;
    for latch in latches.as_slice() {
        copied.push(latch.copy()?)?;
    }
    Ok(copied)
}

/// An equal list of bindings.
pub fn copy_binds(binds: &Items<Bind>) -> Result<Items<Bind>, Memory>
    ensures { IfOk result (λ c. c ≡ binds.now) }
{
    let mut copied = Items::with_room(binds.allocator(), binds.len())?;
    for bind in binds.as_slice() {
        copied.push(bind.copy()?)?;
    }
    Ok(copied)
}

/// An equal list of instances.
pub fn copy_instances(instances: &Items<Instance>) -> Result<Items<Instance>, Memory>
    ensures { IfOk result (λ c. c ≡ instances.now) }
{
    let mut copied = Items::with_room(instances.allocator(), instances.len())?;
    for instance in instances.as_slice() {
        copied.push(instance.copy()?)?;
    }
    Ok(copied)
}

/// An equal list of models.
pub fn copy_models(models: &Items<FileModel>) -> Result<Items<FileModel>, Memory>
    ensures { IfOk result (λ c. c ≡ models.now) }
{
    let mut copied = Items::with_room(models.allocator(), models.len())?;
    for model in models.as_slice() {
        copied.push(model.copy()?)?;
    }
    Ok(copied)
}
