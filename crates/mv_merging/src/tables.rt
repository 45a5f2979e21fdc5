ghost use Rattle.std.specs.Prelude.{◌≡◌, ◌++◌, ◌≤◌, nat_eq, IfOk, OnOk, map};
ghost use Rattle.std.specs.List.{flat_map};
ghost use Rattle.mv_base.specs.declared.limits.TheConstants.{MAX_VALUES as limit};
ghost use Rattle.mv_base.specs.Set.{full};
ghost use Rattle.mv_cover.specs.Absorb.{absorbed};
ghost use Rattle.mv_merging.specs.Tables as spec;
ghost use Rattle.mv_merging.specs.Values.{merged_set};

use crate::Merging;
use mv_base::{Items, Memory, NetId, PackedSet, ValueSet};
use mv_cover::{Cover, Cube, Line, Lit};
use std::alloc::Global;

// ---- a reader's table

/// The table of a reader of the net behind the merge.
pub(crate) fn reader_merged(
    alloc: Global,
    m: Merging,
    n: NetId,
    cover: &Cover,
) -> Result<Cover, Memory>
    requires { m.left ≤ limit }
    ensures { IfOk result (λ new. new ≡ spec.reader_merged m n.0 cover.now) }
{
    let lines = lines_merged(alloc, m, n, cover.lines.as_slice())?;
    let default = cover.copied_default()?;
    let new = absorb(lines, default)?;
    Ok(new)
}

/// The lines with this default, absorbed.
fn absorb(lines: Items<Line>, default: Option<PackedSet>) -> Result<Cover, Memory>
    ensures { IfOk result (λ new. new ≡ absorbed (record { lines = lines; default = default })) }
{
    let mut cover = Cover { lines, default };
    cover.absorb()?;
    Ok(cover)
}

/// The lines of a reader behind the merge.
fn lines_merged(alloc: Global, m: Merging, n: NetId, lines: &[Line]) -> Result<Items<Line>, Memory>
    requires { m.left ≤ limit }
    ensures { IfOk result (λ all. all ≡ flat_map (spec.line_merged m n.0) lines.now) }
{
    let mut all = Items::new(alloc);
    for line in lines {
        put_line(alloc, m, n, line, &mut all)?;
    }
    Ok(all)
}

/// Puts what is left of the line behind those that are there.
fn put_line(
    alloc: Global,
    m: Merging,
    n: NetId,
    line: &Line,
    all: &mut Items<Line>,
) -> Result<(), Memory>
    requires { m.left ≤ limit }
    ensures { OnOk result (all.new ≡ all.old ++ spec.line_merged m n.0 line.now) }
{
    let left = cube_merged(alloc, m, n, line.cube.lits())?;
    let slice = left.as_slice();
    if some_empty(slice) {
        return Ok(());
    }
    let cube = Cube::new(alloc, slice)?;
    let out = line.out.copy()?;
    all.push(Line { cube, out })?;
    Ok(())
}

/// Whether some literal has no value.
fn some_empty(lits: &[Lit]) -> bool
    ensures { result ≡ spec.some_empty lits.now }
{
    lits.iter().any(|l| l.is_empty())
}

/// The literals of a cube behind the merge.
fn cube_merged(alloc: Global, m: Merging, n: NetId, lits: &[Lit]) -> Result<Items<Lit>, Memory>
    requires { m.left ≤ limit }
    ensures { IfOk result (λ all. all ≡ spec.cube_merged m n.0 lits.now) }
{
    let mut all = Items::new(alloc);
    for l in lits {
        put_literal(alloc, m, n, l, &mut all)?;
    }
    Ok(all)
}

/// Puts what is left of the literal behind those that are there.
fn put_literal(
    alloc: Global,
    m: Merging,
    n: NetId,
    l: &Lit,
    all: &mut Items<Lit>,
) -> Result<(), Memory>
    requires { m.left ≤ limit }
    ensures { OnOk result (all.new ≡ all.old ++ spec.literal_merged m n.0 l.now) }
{
    if is_on(l, n) {
        put_asked(alloc, m, l, all)?;
        return Ok(());
    }
    let same = l.copy()?;
    all.push(same)?;
    Ok(())
}

/// Whether the literal is on the net.
fn is_on(l: &Lit, n: NetId) -> bool
    ensures { result ≡ nat_eq l.now.net.0 n.0 }
{
    l.net().0 == n.0
}

/// Puts what the literal asks behind the merge, unless that is every value.
fn put_asked(alloc: Global, m: Merging, l: &Lit, all: &mut Items<Lit>) -> Result<(), Memory>
    requires { m.left ≤ limit }
    ensures { OnOk result
        (all.new ≡ all.old ++ spec.asked_of l.now.net m.left (merged_set m l.now.set)) }
{
    let values = m.merged(l.set());
    if is_full(values, m.left) {
        return Ok(());
    }
    let asked = Lit::new(alloc, l.net(), values)?;
    all.push(asked)?;
    Ok(())
}

/// Whether the set has all of so many values.
fn is_full(values: ValueSet, count: u16) -> bool
    requires { count ≤ limit }
    ensures { result ≡ nat_eq values (full count) }
{
    values == ValueSet::full(count)
}

// ---- the net's own table

/// The net's own table behind the merge.
pub(crate) fn own_merged(alloc: Global, m: Merging, cover: &Cover) -> Result<Cover, Memory>
    requires { m.left ≤ limit }
    ensures { IfOk result (λ new. new ≡ spec.own_merged m cover.now) }
{
    let lines = outputs_merged(alloc, m, cover.lines.as_slice())?;
    let default = default_merged(alloc, m, &cover.default)?;
    let new = absorb(lines, default)?;
    Ok(new)
}

/// The lines with their outputs behind the merge.
fn outputs_merged(alloc: Global, m: Merging, lines: &[Line]) -> Result<Items<Line>, Memory>
    requires { m.left ≤ limit }
    ensures { IfOk result (λ all. all ≡ map (spec.output_merged m) lines.now) }
{
    let mut all = Items::new(alloc);
    for line in lines {
        let new = output_merged(alloc, m, line)?;
        all.push(new)?;
    }
    Ok(all)
}

/// The line with its output behind the merge.
fn output_merged(alloc: Global, m: Merging, line: &Line) -> Result<Line, Memory>
    requires { m.left ≤ limit }
    ensures { IfOk result (λ new. new ≡ spec.output_merged m line.now) }
{
    let cube = line.cube.copy()?;
    let out = set_merged(alloc, m, &line.out)?;
    Ok(Line { cube, out })
}

/// The default behind the merge.
fn default_merged(
    alloc: Global,
    m: Merging,
    default: &Option<PackedSet>,
) -> Result<Option<PackedSet>, Memory>
    requires { m.left ≤ limit }
    ensures { IfOk result (λ new. new ≡ spec.default_merged m default.now) }
{
    match default {
        None => Ok(None),
        Some(out) => {
            let set = set_merged(alloc, m, out)?;
            Ok(Some(set))
        }
    }
}

/// The set behind the merge, to be kept.
fn set_merged(alloc: Global, m: Merging, out: &PackedSet) -> Result<PackedSet, Memory>
    requires { m.left ≤ limit }
    ensures { IfOk result (λ new. new ≡ merged_set m out.now) }
{
    let values = m.merged(out.get());
    let new = PackedSet::new(alloc, values)?;
    Ok(new)
}
