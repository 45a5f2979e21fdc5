ghost use Rattle.std.specs.Prelude.{◌≡◌, ◌≤◌, ◌^◌, IfOk};
ghost use Rattle.mv_cover.specs.Covers.{literal_count};

use crate::Line;
use mv_base::{Items, Memory, PackedSet, ValueSet};
use std::alloc::Global;

/// A table's cover. The default, if there is one, counts where no line's cube holds.
#[derive(Drop)]
pub struct Cover {
    pub lines: Items<Line>,
    pub default: Option<PackedSet>,
}

impl Cover {
    /// The cover of these lines and this default.
    pub fn new(
        alloc: Global,
        lines: Items<Line>,
        default: Option<ValueSet>,
    ) -> Result<Cover, Memory>
        ensures { IfOk result (λ cover. cover ≡ record { lines = lines; default = default }) }
    {
        Ok(Cover {
            lines,
            default: kept(alloc, default)?,
        })
    }

    /// An equal cover.
    pub fn copy(&self) -> Result<Cover, Memory>
        ensures { IfOk result (λ cover. cover ≡ self.now) }
    {
        Ok(Cover {
            lines: copied_lines(&self.lines)?,
            default: self.copied_default()?,
        })
    }

    /// An equal default.
    pub fn copied_default(&self) -> Result<Option<PackedSet>, Memory>
        ensures { IfOk result (λ default. default ≡ self.now.default) }
    {
        match &self.default {
            None => Ok(None),
            Some(set) => Ok(Some(set.copy()?)),
        }
    }

    /// The literals of the lines, each of which counts one. It takes no memory.
    pub fn literals(&self) -> u128
        ensures value { result ≡ literal_count self.now.lines }
        ensures few { result ≤ 2 ^ 96 }
    {
        let mut total: u128 = 0;
        for line in self.lines.as_slice() {
            total += line.cube.len() as u128;
        }
        total
    }
}

/// The set, to be kept, if there is one.
fn kept(alloc: Global, set: Option<ValueSet>) -> Result<Option<PackedSet>, Memory>
    ensures { IfOk result (λ kept. kept ≡ set) }
{
    match set {
        None => Ok(None),
        Some(set) => Ok(Some(PackedSet::new(alloc, set)?)),
    }
}

/// Equal lines, in order.
fn copied_lines(lines: &Items<Line>) -> Result<Items<Line>, Memory>
    ensures { IfOk result (λ copies. copies ≡ lines.now) }
{
    let mut copies = Items::with_room(lines.allocator(), lines.len())?;
    for line in lines.as_slice() {
        copies.push(line.copy()?)?;
    }
    Ok(copies)
}
