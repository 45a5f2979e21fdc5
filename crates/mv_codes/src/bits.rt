ghost use Rattle.std.specs.Prelude.{◌≡◌, ◌<◌, ◌≤◌, length, map, IfOk, false};
ghost use Rattle.mv_base.specs.declared.limits.TheConstants.{MAX_VALUES};
ghost use Rattle.std.specs.List.{slice_index_or};
ghost use Rattle.mv_codes.specs.Tables as spec;
ghost use Rattle.mv_codes.specs.Tables.{split_of};

use mv_base::{Items, Memory, PackedSet, Value, ValueSet};
use mv_cover::{Cover, Line};
use mv_entry::Code;
use std::alloc::Global;

/// The table of the bit at a place of the codes: the net's table, where each value is its bit. There is a code for each value.
#[tactic(auto, unfolding(crate::specs::Tables::bit_table))]
pub fn bit_table(
    alloc: Global,
    codes: &[Code],
    place: usize,
    cover: &Cover,
) -> Result<Cover, Memory>
    requires { length codes.now ≤ MAX_VALUES }
    ensures { IfOk result (λ new. new ≡ spec.bit_table codes.now place cover.now) }
{
    let split = Split::at(codes, place);
    let lines = line_bits(alloc, &split, cover.lines.as_slice())?;
    let default = default_bit(alloc, &split, &cover.default)?;
    Ok(Cover { lines, default })
}

/// The values whose codes have 0 at some place, and those whose codes have 1 there.
#[derive(Drop)]
struct Split {
    zeros: ValueSet,
    ones: ValueSet,
}

impl Split {
    /// The values by their bits at the place.
    #[tactic(auto, unfolding(crate::specs::Tables::split_of))]
    fn at(codes: &[Code], place: usize) -> Split
        requires { length codes.now ≤ MAX_VALUES }
        ensures { result ≡ split_of codes.now place }
    {
        Split {
            zeros: values_with(codes, place, false),
            ones: values_with(codes, place, true),
        }
    }

    /// The bits of the set's values.
    #[tactic(auto, unfolding(crate::specs::Tables::bit_image))]
    fn image(&self, set: ValueSet) -> ValueSet
        ensures { result ≡ spec.bit_image self.now set }
    {
        bit_if_meet(Value(0), set, self.zeros).join(bit_if_meet(Value(1), set, self.ones))
    }
}

/// The values whose codes have this bit at the place.
fn values_with(codes: &[Code], place: usize, bit: bool) -> ValueSet
    requires { length codes.now ≤ MAX_VALUES }
    ensures { result ≡ spec.values_with codes.now place bit (length codes.now) }
{
    let mut values = ValueSet::empty();
    for (v, code) in codes.iter().enumerate() {
        if bit_at(code, place) == bit {
            values = values.join(ValueSet::one(Value(v as u16)));
        }
    }
    values
}

/// The bit of the code at the place, or 0 where it has none.
fn bit_at(code: &Code, place: usize) -> bool
    ensures { result ≡ slice_index_or code.now.bits place false }
{
    match code.bits.get(place) {
        None => false,
        Some(bit) => *bit,
    }
}

/// The set of the bit alone, if the two sets meet.
fn bit_if_meet(bit: Value, a: ValueSet, b: ValueSet) -> ValueSet
    requires { bit.0 < 2 }
    ensures { result ≡ spec.bit_if_meet bit.0 a b }
{
    if a.meet(b) == ValueSet::empty() {
        return ValueSet::empty();
    }
    ValueSet::one(bit)
}

/// The lines with the bits of their values.
fn line_bits(alloc: Global, split: &Split, lines: &[Line]) -> Result<Items<Line>, Memory>
    ensures { IfOk result (λ all. all ≡ map (spec.line_bit split.now) lines.now) }
{
    let mut all = Items::with_room(alloc, lines.len())?;
    for line in lines {
        all.push(line_bit(alloc, split, line)?)?;
    }
    Ok(all)
}

/// The line with the bits of its values.
fn line_bit(alloc: Global, split: &Split, line: &Line) -> Result<Line, Memory>
    ensures { IfOk result (λ new. new ≡ spec.line_bit split.now line.now) }
{
    let cube = line.cube.copy()?;
    let out = PackedSet::new(alloc, split.image(line.out.get()))?;
    Ok(Line { cube, out })
}

/// The bits of the default's values, if there is one.
fn default_bit(
    alloc: Global,
    split: &Split,
    default: &Option<PackedSet>,
) -> Result<Option<PackedSet>, Memory>
    ensures { IfOk result (λ new. new ≡ spec.default_bit split.now default.now) }
{
    match default {
        None => Ok(None),
        Some(out) => Ok(Some(PackedSet::new(alloc, split.image(out.get()))?)),
    }
}
