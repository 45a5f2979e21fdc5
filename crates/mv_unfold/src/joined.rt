//! The one model over all nets that a design with instances is.
ghost use Rattle.std.specs.Prelude.{◌≡◌, IfOk};
ghost use Rattle.mv_design.specs.Nets.{root_of};
ghost use Rattle.mv_tree.specs.Unfolded.{joined};
ghost use Rattle.mv_unfold.specs.Laid.{IsLaid, places_of};

use crate::decls::decls;
use crate::layout::Layout;
use crate::reset_tables::resets;
use crate::tables::{latches, tables};
use mv_base::{Items, Memory};
use mv_design::FileModel;
use std::alloc::Global;

/// The root with the nets, tables, latches and reset tables of all places.
pub fn joined(alloc: Global, layout: &Layout<'_>) -> Result<FileModel, Memory>
    requires { IsLaid layout.now }
    ensures { IfOk result
        (λ model. model ≡ joined (root_of layout.now.design.now) (places_of layout.now)) }
{
    let root = layout.file(0);
    Ok(FileModel {
        name: root.name.copy()?,
        inputs: root.inputs.copy_names()?,
        outputs: root.outputs.copy_names()?,
        decls: decls(alloc, layout)?,
        tables: tables(alloc, layout)?,
        latches: latches(alloc, layout)?,
        resets: resets(alloc, layout)?,
        instances: Items::new(alloc),
    })
}
