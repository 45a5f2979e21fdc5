ghost use Rattle.std.specs.Prelude.{◌≡◌, ◌<◌, ◌≤◌, ◌++◌, ℕ, IfErr, IfOk, OnOk, Some, take, length};
ghost use Rattle.mv_base.specs.Set.{one};
ghost use Rattle.mv_base.specs.declared.limits.TheConstants.{MAX_COMPLEMENT_CUBES, MAX_VALUES};
ghost use Rattle.mv_composite.specs.Inside.{IsCoverOver};
ghost use Rattle.mv_cover.specs.Complement.{LinesSuit};
ghost use Rattle.mv_cover.specs.Lines.{IsOutput};
ghost use Rattle.mv_cover.specs.Sharp.{Suits};
ghost use Rattle.mv_determine.specs.Determined.{IsTooLong, cubes_outside, determined_of, least_default, least_of, lines_behind};

use crate::behind::{cubes_outside, put_lines};
use mv_base::{Items, MAX_TABLE_LINES, Memory, PackedSet};
use mv_cover::{Cover, CoverStop, Line};
use std::alloc::Global;

/// The table in which each line stands only where none before it does, as the cubes of its sharps by them, with the least value of its
/// output; and the default is its least value. `counts` has the number of values of each net by its number, and the table's net has
/// `values` of them. It is Wide where some line becomes more than `MAX_COMPLEMENT_CUBES` cubes behind some of the lines before it, or
/// all of them become more than `MAX_TABLE_LINES` lines.
pub fn determined(
    alloc: Global,
    table: &Cover,
    values: u16,
    counts: &[u16],
) -> Result<Cover, CoverStop>
    requires few { values ≤ MAX_VALUES }
    requires over { IsCoverOver counts.now values table.now }
    ensures table { IfOk result (λ cover. cover ≡ determined_of counts.now table.now) }
    ensures short { IfOk result (λ _. IsTooLong counts.now table.now → ⊥) }
    ensures long { IfErr result (λ stop. stop ≡ CoverStop.Wide → IsTooLong counts.now table.now) }
{
    let old = table.lines.as_slice();
    let mut lines = Items::new(alloc);
    for place in 0..old.len() {
        match put_behind(
            alloc,
            &old[..place],
            &old[place],
            values,
            counts,
            &mut lines,
        ) {
            Ok(()) => {}
            Err(stop) => return Err(stop),
        }
        if lines.len() as u64 > MAX_TABLE_LINES {
            return Err(CoverStop::Wide);
        }
    }
    let default = default_of(alloc, table, values)?;
    Ok(Cover { lines, default })
}

/// Adds what the line becomes behind the earlier ones.
fn put_behind(
    alloc: Global,
    earlier: &[Line],
    line: &Line,
    values: u16,
    counts: &[u16],
    lines: &mut Items<Line>,
) -> Result<(), CoverStop>
    requires few { values ≤ MAX_VALUES }
    requires own { Suits counts.now line.now.cube }
    requires others { LinesSuit counts.now earlier.now }
    requires out { IsOutput values line.now.out }
    ensures lines { OnOk result
        (lines.new ≡ lines.old ++ lines_behind counts.now earlier.now line.now) }
    ensures narrow { OnOk result ((k : ℕ)
        → length (cubes_outside counts.now (take k earlier.now) line.now.cube)
        ≤ MAX_COMPLEMENT_CUBES) }
    ensures wide { IfErr result (λ stop. stop ≡ CoverStop.Wide
        → (k : ℕ) ×
        (MAX_COMPLEMENT_CUBES
        < length (cubes_outside counts.now (take k earlier.now) line.now.cube))) }
{
    let cubes = match cubes_outside(alloc, earlier, &line.cube, counts) {
        Ok(cubes) => cubes,
        Err(stop) => return Err(stop),
    };
    let out = least(alloc, &line.out, values)?;
    Ok(put_lines(lines, cubes, &out)?)
}

/// The least value of the set, alone.
fn least(alloc: Global, set: &PackedSet, values: u16) -> Result<PackedSet, Memory>
    requires few { values ≤ MAX_VALUES }
    requires some { IsOutput values set.now }
    ensures { IfOk result (λ least. least ≡ one (least_of set.now)) }
{
    PackedSet::one(alloc, set.get().least().unwrap())
}

/// The least value of the default, if there is one.
fn default_of(alloc: Global, table: &Cover, values: u16) -> Result<Option<PackedSet>, Memory>
    requires few { values ≤ MAX_VALUES }
    requires some { (out : ℕ) → table.now.default ≡ Some out → IsOutput values out }
    ensures { IfOk result (λ default. default ≡ least_default table.now.default) }
{
    match &table.default {
        None => Ok(None),
        Some(set) => Ok(Some(least(alloc, set, values)?)),
    }
}
