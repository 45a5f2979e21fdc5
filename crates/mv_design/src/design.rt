ghost use Rattle.std.specs.Prelude.{◌≡◌, IfOk};

use crate::copies::{
    copy_binds, copy_decls, copy_instances, copy_latches, copy_models, copy_tables,
};
use crate::table::FileTable;
use mv_base::{Items, Memory, Name};

/// A net with the names of its values in order; the value v is the one at place v.
#[derive(Drop)]
pub struct Decl {
    pub net: Name,
    pub values: Items<Name>,
}

/// A latch: the number of its line, the net that it reads and the net that it drives.
#[derive(Drop)]
pub struct FileLatch {
    pub line: u32,
    pub input: Name,
    pub output: Name,
}

/// A formal net of a model, bound to an actual net round it.
#[derive(Drop)]
pub struct Bind {
    pub formal: Name,
    pub actual: Name,
}

/// An instance of a model: the number of its line, the model, the instance's own name, and its bindings in order.
#[derive(Drop)]
pub struct Instance {
    pub line: u32,
    pub model: Name,
    pub name: Name,
    pub binds: Items<Bind>,
}

/// A model: its name, its inputs and its outputs, the declared nets, each once, and its tables, latches, reset tables and
/// instances, each in the order of their lines.
#[derive(Drop)]
pub struct FileModel {
    pub name: Name,
    pub inputs: Items<Name>,
    pub outputs: Items<Name>,
    pub decls: Items<Decl>,
    pub tables: Items<FileTable>,
    pub latches: Items<FileLatch>,
    pub resets: Items<FileTable>,
    pub instances: Items<Instance>,
}

/// What a network file says: its models in order, and the place of the root among them.
#[derive(Drop)]
pub struct Design {
    pub root: u32,
    pub models: Items<FileModel>,
}

impl Decl {
    /// An equal declaration.
    pub fn copy(&self) -> Result<Decl, Memory>
        ensures { IfOk result (λ c. c ≡ self.now) }
    {
        Ok(Decl {
            net: self.net.copy()?,
            values: self.values.copy_names()?,
        })
    }
}

impl FileLatch {
    /// An equal latch.
    pub fn copy(&self) -> Result<FileLatch, Memory>
        ensures { IfOk result (λ c. c ≡ self.now) }
    {
        Ok(FileLatch {
            line: self.line,
            input: self.input.copy()?,
            output: self.output.copy()?,
        })
    }
}

impl Bind {
    /// An equal binding.
    pub fn copy(&self) -> Result<Bind, Memory>
        ensures { IfOk result (λ c. c ≡ self.now) }
    {
        Ok(Bind {
            formal: self.formal.copy()?,
            actual: self.actual.copy()?,
        })
    }
}

impl Instance {
    /// An equal instance.
    pub fn copy(&self) -> Result<Instance, Memory>
        ensures { IfOk result (λ c. c ≡ self.now) }
    {
        Ok(Instance {
            line: self.line,
            model: self.model.copy()?,
            name: self.name.copy()?,
            binds: copy_binds(&self.binds)?,
        })
    }
}

impl FileModel {
    /// An equal model.
    pub fn copy(&self) -> Result<FileModel, Memory>
        ensures { IfOk result (λ c. c ≡ self.now) }
    {
        Ok(FileModel {
            name: self.name.copy()?,
            inputs: self.inputs.copy_names()?,
            outputs: self.outputs.copy_names()?,
            decls: copy_decls(&self.decls)?,
            tables: copy_tables(&self.tables)?,
            latches: copy_latches(&self.latches)?,
            resets: copy_tables(&self.resets)?,
            instances: copy_instances(&self.instances)?,
        })
    }
}

impl Design {
    /// An equal design.
    pub fn copy(&self) -> Result<Design, Memory>
        ensures { IfOk result (λ c. c ≡ self.now) }
    {
        Ok(Design {
            root: self.root,
            models: copy_models(&self.models)?,
        })
    }
}
