ghost use Rattle.std.specs.Prelude.{◌≡◌, ◌≤◌, IfOk, IsTrue, OnOk, length, unwrap_or};
ghost use Rattle.std.specs.List.{list_any};
ghost use Rattle.mv_base.specs.declared.limits.TheConstants.{MAX_VALUES as limit};
ghost use Rattle.mv_base.specs.declared.number.NetId.{NetId as a_net};
ghost use Rattle.mv_alike.specs.Classes.{AreNumbered, AreRefined, AreClasses};
ghost use Rattle.mv_alike.specs.Classes as spec;
ghost use Rattle.mv_cover.specs.declared.line.Line.{Line as a_line};
ghost use Rattle.mv_merging.specs.Verdicts.{literal_splits, splits, table_splits};
ghost use Rattle.mv_net.specs.Index.{is_held};
ghost use Rattle.mv_net.specs.Nets.{slot, table_in};

use mv_base::{Memory, NetId, Value, ValueSet};
use mv_cover::{Cover, Line, Lit};
use mv_net::Network;
use std::alloc::Global;

/// The classes of the values of the net that no literal tells apart: for each value the least of its class.
pub(crate) fn classes_of(alloc: Global, net: &Network, n: NetId) -> Result<Vec<u16>, Memory>
    requires { IsTrue (is_held net.now.nets n.0) }
    ensures classes { IfOk result (λ classes. AreClasses net.now.nets n.0 classes.items) }
    ensures few { IfOk result (λ classes. length classes.items ≤ limit) }
{
    net.well_formed();
    let mut classes = vec![in alloc; 0; net.values(n) as usize]?;
    refine_by_readers(alloc, net, net.readers(n), n, &mut classes)?;
    Ok(classes)
}

/// Cuts the classes by what the tables of these nets tell of the net's values.
fn refine_by_readers(
    alloc: Global,
    net: &Network,
    readers: &[NetId],
    n: NetId,
    classes: &mut Vec<u16>,
) -> Result<(), Memory>
    requires few { length classes.old.items ≤ limit }
    requires numbered { AreNumbered classes.old.items }
    ensures { OnOk result (AreRefined
        (λ u v. list_any
        (λ (m : a_net). table_splits n.0 u v (table_in (slot net.now.nets m.0))) readers.now)
        classes.old.items classes.new.items) }
{
    for reader in readers {
        refine_by_table(alloc, net, *reader, n, classes)?;
    }
    Ok(())
}

/// Cuts the classes by what the table of the net `m`, if it has one, tells of the values of the net `n`.
fn refine_by_table(
    alloc: Global,
    net: &Network,
    m: NetId,
    n: NetId,
    classes: &mut Vec<u16>,
) -> Result<(), Memory>
    requires few { length classes.old.items ≤ limit }
    requires numbered { AreNumbered classes.old.items }
    ensures { OnOk result
        (AreRefined (λ u v. table_splits n.0 u v (table_in (slot net.now.nets m.0)))
        classes.old.items classes.new.items) }
{
    if net.holds(m) {
        return refine_by_held(alloc, net, m, n, classes);
    }
    Ok(())
}

/// The same of a net that is held.
fn refine_by_held(
    alloc: Global,
    net: &Network,
    m: NetId,
    n: NetId,
    classes: &mut Vec<u16>,
) -> Result<(), Memory>
    requires held { IsTrue (is_held net.now.nets m.0) }
    requires few { length classes.old.items ≤ limit }
    requires numbered { AreNumbered classes.old.items }
    ensures { OnOk result
        (AreRefined (λ u v. table_splits n.0 u v (table_in (slot net.now.nets m.0)))
        classes.old.items classes.new.items) }
{
    match net.table(m) {
        None => Ok(()),
        Some(cover) => refine_by_lines(alloc, cover.lines.as_slice(), n, classes),
    }
}

/// Cuts the classes by what the literals of the lines tell of the net's values.
fn refine_by_lines(
    alloc: Global,
    lines: &[Line],
    n: NetId,
    classes: &mut Vec<u16>,
) -> Result<(), Memory>
    requires few { length classes.old.items ≤ limit }
    requires numbered { AreNumbered classes.old.items }
    ensures { OnOk result
        (AreRefined
        (λ u v. list_any (λ (l : a_line). list_any (literal_splits n.0 u v) l.cube) lines.now)
        classes.old.items classes.new.items) }
{
    for line in lines {
        refine_by_cube(alloc, line.cube.lits(), n, classes)?;
    }
    Ok(())
}

/// Cuts the classes by what the literals tell of the net's values.
fn refine_by_cube(
    alloc: Global,
    lits: &[Lit],
    n: NetId,
    classes: &mut Vec<u16>,
) -> Result<(), Memory>
    requires few { length classes.old.items ≤ limit }
    requires numbered { AreNumbered classes.old.items }
    ensures { OnOk result
        (AreRefined
        (λ u v. list_any (literal_splits n.0 u v) lits.now) classes.old.items classes.new.items) }
{
    for l in lits {
        refine_by_literal(alloc, l, n, classes)?;
    }
    Ok(())
}

/// Cuts the classes by what the literal tells of the net's values.
fn refine_by_literal(alloc: Global, l: &Lit, n: NetId, classes: &mut Vec<u16>) -> Result<(), Memory>
    requires few { length classes.old.items ≤ limit }
    requires numbered { AreNumbered classes.old.items }
    ensures { OnOk result
        (AreRefined (λ u v. literal_splits n.0 u v l.now) classes.old.items classes.new.items) }
{
    if l.net().0 != n.0 {
        return Ok(());
    }
    *classes = refined(alloc, classes.as_slice(), l.set())?;
    Ok(())
}

/// The classes where each is cut in two by the set: those of its values that the set has, and the others.
fn refined(alloc: Global, classes: &[u16], set: ValueSet) -> Result<Vec<u16>, Memory>
    requires few { length classes.now ≤ limit }
    requires numbered { AreNumbered classes.now }
    ensures { IfOk result (λ new. AreRefined (λ u v. splits u v set) classes.now new.items) }
{
    let mut firsts = vec![in alloc; None; 2 * classes.len()]?;
    let mut new = Vec::with_capacity(alloc, classes.len())?;
    for (at, class) in classes.iter().enumerate() {
        let value = at as u16;
        let half = half_of(*class, set.has(Value(value)));
        let first = first_of(firsts[half], value);
        firsts[half] = Some(first);
        new.push(first)?;
    }
    Ok(new)
}

/// The place of one half of a class: each has two, one behind the other.
fn half_of(class: u16, inside: bool) -> usize
    ensures { result ≡ spec.half_of class inside }
{
    let half = if inside { 1 } else { 0 };
    2 * class as usize + half
}

/// The first value of a half, which is this one where none came before.
fn first_of(before: Option<u16>, value: u16) -> u16
    ensures { result ≡ unwrap_or before value }
{
    match before {
        None => value,
        Some(first) => first,
    }
}
