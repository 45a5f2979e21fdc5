ghost use Rattle.std.specs.Prelude.{◌≡◌, ◌+◌, ◌<◌, ◌^◌, ◌∷◌, [], ◌++◌, length, map, IfOk, OnOk};
ghost use Rattle.std.specs.List.{list_all, list_any};
ghost use Rattle.mv_codes.specs.CodeCubes as spec;
ghost use Rattle.mv_codes.specs.CodeCubes.{bit_literal, AreBelow};
ghost use Rattle.mv_codes.specs.Tables as tables;
ghost use Rattle.mv_codes.specs.Rewriting.{IsCoding};

use crate::Coding;
use mv_base::{Memory, NetId, Value, ValueSet};
use mv_cover::{Cube, Lit};
use smallvec::SmallVec;
use std::alloc::Global;

/// The cubes of all codes that count as a value of the set.
pub fn set_cubes(alloc: Global, coding: &Coding, set: ValueSet) -> Result<Vec<Cube>, Memory>
    requires { IsCoding coding.now }
    ensures { IfOk result (λ cubes. cubes.items ≡ tables.set_cubes coding.now set) }
{
    let marks = marks_of(alloc, coding.values.as_slice(), set)?;
    let everywhere = Cube::new(alloc, &[])?;
    let mut cubes = Vec::new(alloc);
    put_cubes(
        coding.bits,
        coding.first,
        marks.as_slice(),
        &everywhere,
        &mut cubes,
    )?;
    Ok(cubes)
}

/// Of each code, by the value that it counts as, whether that is one of the set.
fn marks_of(alloc: Global, values: &[u16], set: ValueSet) -> Result<Vec<bool>, Memory>
    ensures { IfOk result (λ marks. marks.items ≡ spec.marks_of values.now set) }
{
    let mut marks = Vec::with_capacity(alloc, values.len())?;
    for value in values {
        marks.push(set.has(Value(*value)))?;
    }
    Ok(marks)
}

/// Puts the cubes of the marked codes, of so many bits to come, of which the net has the next. Each asks besides what the cube so
/// far asks of the nets before.
fn put_cubes(
    bits: u32,
    net: NetId,
    marks: &[bool],
    so_far: &Cube,
    cubes: &mut Vec<Cube>,
) -> Result<(), Memory>
    requires whole { length marks.now ≡ 2 ^ bits }
    requires room { net.0 + bits < 2 ^ 32 }
    requires below { AreBelow net.0 so_far.now }
    ensures { OnOk result
        (cubes.new.items
        ≡ cubes.old.items ++ map (λ c. so_far.now ++ c) (spec.code_cubes bits net.0 marks.now)) }
{
    if all_marked(marks) {
        cubes.push(so_far.copy()?)?;
        return Ok(());
    }
    if bits == 0 {
        return Ok(());
    }
    if !some_marked(marks) {
        return Ok(());
    }
    let (low, high) = marks.split_at(marks.len() / 2);
    let next = NetId(net.0 + 1);
    if low == high {
        return put_cubes(bits - 1, next, low, so_far, cubes);
    }
    let zero = with_bit(so_far, net, 0)?;
    put_cubes(bits - 1, next, low, &zero, cubes)?;
    let one = with_bit(so_far, net, 1)?;
    put_cubes(bits - 1, next, high, &one, cubes)
}

/// Whether all codes are marked.
fn all_marked(marks: &[bool]) -> bool
    ensures { result ≡ list_all (λ m. m) marks.now }
{
    marks.iter().all(|marked| *marked)
}

/// Whether some code is marked.
fn some_marked(marks: &[bool]) -> bool
    ensures { result ≡ list_any (λ m. m) marks.now }
{
    marks.iter().any(|marked| *marked)
}

/// The cube with the literal more that the net, which is above all of its nets, has this bit.
fn with_bit(cube: &Cube, net: NetId, bit: u16) -> Result<Cube, Memory>
    requires below { AreBelow net.0 cube.now }
    requires bit { bit < 2 }
    ensures more { IfOk result (λ more. more ≡ cube.now ++ bit_literal net.0 bit ∷ []) }
    ensures below { IfOk result (λ more. AreBelow (net.0 + 1) more) }
{
    let mut lits = SmallVec::with_capacity(cube.allocator(), cube.len() + 1)?;
    for l in cube.lits() {
        lits.push(l.copy()?)?;
    }
    let asked = Lit::new(cube.allocator(), net, ValueSet::one(Value(bit)))?;
    lits.push(asked)?;
    Ok(Cube::of(lits))
}
