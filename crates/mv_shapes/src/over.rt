//! Covers over places of nets as covers over these nets.
ghost use Rattle.std.specs.Prelude.{◌≡◌, ◌<◌, true, length, map, IfOk, IfSome, All};
ghost use Rattle.std.specs.Option.{option_map};
ghost use Rattle.mv_graph.specs.Nets.{ids_ascend};
ghost use Rattle.mv_shapes.specs.Shape.{lit_over, line_over, cover_over, flat_over, IsLowLine, IsLowCover, IsLowFlat};

use mv_base::{Items, Memory, NetId, PackedSet};
use mv_cover::{Cover, Cube, Line, Lit};
use mv_rows::FlatTable;
use smallvec::SmallVec;
use std::alloc::Global;

/// The covers of a table over the nets at these places.
pub fn flat_over(alloc: Global, nets: &[NetId], flat: &FlatTable) -> Result<FlatTable, Memory>
    requires ascend { ids_ascend nets.now ≡ true }
    requires low { IsLowFlat (length nets.now) flat.now }
    ensures { IfOk result (λ made. made ≡ flat_over nets.now flat.now) }
{
    Ok(FlatTable {
        cover: cover_over(alloc, nets, &flat.cover)?,
        mark: mark_over(alloc, nets, &flat.mark)?,
    })
}

/// The cover of a mark over the nets at these places, if there is one.
fn mark_over(alloc: Global, nets: &[NetId], mark: &Option<Cover>) -> Result<Option<Cover>, Memory>
    requires ascend { ids_ascend nets.now ≡ true }
    requires low { IfSome mark.now (IsLowCover (length nets.now)) }
    ensures { IfOk result (λ made. made ≡ option_map (cover_over nets.now) mark.now) }
{
    match mark {
        Some(cover) => Ok(Some(cover_over(alloc, nets, cover)?)),
        None => Ok(None),
    }
}

/// The cover over the nets at these places.
fn cover_over(alloc: Global, nets: &[NetId], cover: &Cover) -> Result<Cover, Memory>
    requires ascend { ids_ascend nets.now ≡ true }
    requires low { IsLowCover (length nets.now) cover.now }
    ensures { IfOk result (λ made. made ≡ cover_over nets.now cover.now) }
{
    Ok(Cover {
        lines: lines_over(alloc, nets, cover.lines.as_slice())?,
        default: copied(&cover.default)?,
    })
}

/// An equal default.
fn copied(default: &Option<PackedSet>) -> Result<Option<PackedSet>, Memory>
    ensures { IfOk result (λ copy. copy ≡ default.now) }
{
    match default {
        Some(set) => Ok(Some(set.copy()?)),
        None => Ok(None),
    }
}

/// The lines over the nets at these places.
fn lines_over(alloc: Global, nets: &[NetId], lines: &[Line]) -> Result<Items<Line>, Memory>
    requires ascend { ids_ascend nets.now ≡ true }
    requires low { All (IsLowLine (length nets.now)) lines.now }
    ensures { IfOk result (λ made. made ≡ map (line_over nets.now) lines.now) }
{
    let mut made = Items::with_room(alloc, lines.len())?;
    for line in lines {
        made.push(Line {
            cube: cube_over(alloc, nets, &line.cube)?,
            out: line.out.copy()?,
        })?;
    }
    Ok(made)
}

/// The cube over the nets at these places.
fn cube_over(alloc: Global, nets: &[NetId], cube: &Cube) -> Result<Cube, Memory>
    requires ascend { ids_ascend nets.now ≡ true }
    requires low { All (λ l. l.net.0 < length nets.now) cube.now }
    ensures { IfOk result (λ made. made ≡ map (lit_over nets.now) cube.now) }
{
    let made = lits_over(alloc, nets, cube.lits())?;
    Ok(Cube::of(made))
}

/// The literals over the nets at these places.
fn lits_over(alloc: Global, nets: &[NetId], lits: &[Lit]) -> Result<SmallVec<Lit, 2>, Memory>
    requires low { All (λ l. l.net.0 < length nets.now) lits.now }
    ensures { IfOk result (λ made. made.items ≡ map (lit_over nets.now) lits.now) }
{
    let mut made = SmallVec::with_capacity(alloc, lits.len())?;
    for lit in lits {
        made.push(lit_over(alloc, nets, lit)?)?;
    }
    Ok(made)
}

/// The literal over the net at its place.
fn lit_over(alloc: Global, nets: &[NetId], lit: &Lit) -> Result<Lit, Memory>
    requires low { lit.now.net.0 < length nets.now }
    ensures { IfOk result (λ made. made ≡ lit_over nets.now lit.now) }
{
    let net = nets[lit.net().0 as usize];
    let made = Lit::new(alloc, net, lit.set())?;
    Ok(made)
}
