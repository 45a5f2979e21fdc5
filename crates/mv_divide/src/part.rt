ghost use Rattle.std.specs.Prelude.{◌≡◌, ◌<◌, ◌++◌, ◌∷◌, [], IfOk, IfSome, OnOk, length, map, slice_get, slice_set};
ghost use Rattle.mv_divide.specs.Tables as tables;
ghost use Rattle.mv_divide.specs.Grouped.{AreGrouped, with_cube, as_part};

use crate::Dividend;
use indexmap::IndexSet;
use mv_base::{Items, Memory, PackedSet};
use mv_cover::{Cube, Line};
use std::alloc::Global;

/// The cover of an output set of a table: the cubes of the lines with it.
#[derive(Drop)]
pub struct Part {
    pub out: PackedSet,
    pub cover: Dividend,
}

/// The cubes of the lines with an output set.
#[derive(Drop)]
struct Group {
    out: PackedSet,
    cubes: Items<Cube>,
}

/// The output sets of lines, and their groups beside them.
#[derive(Drop)]
struct Groups {
    outs: IndexSet<PackedSet>,
    groups: Vec<Group>,
}

/// The covers of a table with these lines, in the order in which their output sets first appear.
pub fn parts(alloc: Global, lines: &[Line]) -> Result<Vec<Part>, Memory>
    ensures { IfOk result (λ parts. parts.items ≡ tables.parts_of lines.now) }
{
    let groups = grouped(alloc, lines)?;
    covers(alloc, groups.groups)
}

/// The groups as covers that can be divided.
fn covers(alloc: Global, groups: Vec<Group>) -> Result<Vec<Part>, Memory>
    ensures { IfOk result (λ parts. parts.items ≡ map as_part groups.items) }
{
    let mut parts = Vec::new(alloc);
    for group in groups {
        parts.push(Part {
            out: group.out,
            cover: Dividend::new(alloc, group.cubes)?,
        })?;
    }
    Ok(parts)
}

/// The groups of the lines.
fn grouped(alloc: Global, lines: &[Line]) -> Result<Groups, Memory>
    ensures { IfOk result (λ g. AreGrouped lines.now g.outs.keys g.groups.items) }
{
    let mut groups = Groups {
        outs: IndexSet::new(alloc),
        groups: Vec::new(alloc),
    };
    for (place, line) in lines.iter().enumerate() {
        add(alloc, &mut groups, &lines[..place], line)?;
    }
    Ok(groups)
}

/// Puts a line behind these to the groups.
fn add(alloc: Global, groups: &mut Groups, before: &[Line], line: &Line) -> Result<(), Memory>
    requires { AreGrouped before.now groups.old.outs.keys groups.old.groups.items }
    ensures { OnOk result
        (AreGrouped (before.now ++ line.now ∷ []) groups.new.outs.keys groups.new.groups.items) }
{
    let cube = line.cube.copy()?;
    match groups.outs.get_index_of(&line.out) {
        Some(at) => put(&mut groups.groups, at, cube),
        None => {
            groups.outs.insert(line.out.copy()?)?;
            Ok(groups.groups.push(group_of(alloc, &line.out, cube)?)?)
        }
    }
}

/// The group of one cube.
fn group_of(alloc: Global, out: &PackedSet, cube: Cube) -> Result<Group, Memory>
    ensures { IfOk result (λ group. group ≡ record { out = out.now; cubes = cube ∷ [] }) }
{
    let mut cubes = Items::new(alloc);
    cubes.push(cube)?;
    Ok(Group {
        out: out.copy()?,
        cubes,
    })
}

/// Puts the cube to the group at the place.
fn put(groups: &mut Vec<Group>, at: usize, cube: Cube) -> Result<(), Memory>
    requires { at < length groups.old.items }
    ensures { OnOk result
        (IfSome (slice_get groups.old.items at)
        (λ g. groups.new.items ≡ slice_set groups.old.items at (with_cube g cube))) }
{
    let group = &mut groups[at];
    Ok(group.cubes.push(cube)?)
}
