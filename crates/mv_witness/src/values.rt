ghost use Rattle.std.specs.Prelude.{◌≡◌, ◌+◌, ◌*◌, ◌<◌, ◌≤◌, true, [], length, slice_index, IfOk, IfErr, OnOk, MatchBool};
ghost use Rattle.mv_base.specs.declared.limits.TheConstants.{MAX_VALUES};
ghost use Rattle.mv_diagram.specs.Diagrams.{HasNoRoom};
ghost use Rattle.mv_diagram.specs.Sets.{Point};
ghost use Rattle.mv_factors.specs.Families.{Keeps, before, set_at};
ghost use Rattle.mv_witness.specs.Commons.{CanBe, HasCommon, HasValues, IsFixed};

use crate::Commons;
use mv_base::{Value, ValueSet};
use mv_diagram::{Literal, Nodes};
use mv_factors::Factors;

/// Whether the sets from a place on have a common point with this value of a variable.
fn may_be(
    commons: &mut Commons,
    factors: &mut Factors,
    from: usize,
    var: u32,
    value: u16,
) -> Result<bool, Nodes>
    requires counts { factors.old.contents.counts ≡ commons.old.counts }
    requires places { 2 * length factors.old.list + 1 ≤ commons.old.places }
    requires from { from ≤ length factors.old.list }
    requires room { 2 * length factors.old.list + 1 ≤ factors.old.room }
    requires first { (p : Point) → set_at factors.old 0 p ≡ true }
    requires var { var < length factors.old.contents.counts }
    requires value { value < MAX_VALUES }
    ensures keeps { Keeps factors.old factors.new (before (length factors.old.list)) }
    ensures long { OnOk result (length factors.new.list ≡ length factors.old.list) }
    ensures same { commons.new ≡ commons.old }
    ensures found { IfOk result (λ found. MatchBool found
        (CanBe factors.old from var value) (CanBe factors.old from var value → ⊥)) }
    ensures full { IfErr result (HasNoRoom factors.new.contents) }
{
    let set = ValueSet::one(Value(value));
    commons.have_common(factors, from, &[Literal { var, set }])
}

/// The least value of a variable that a common point of the sets from a place on has. They have a common point.
fn least_value(
    commons: &mut Commons,
    factors: &mut Factors,
    from: usize,
    var: u32,
) -> Result<u16, Nodes>
    requires counts { factors.old.contents.counts ≡ commons.old.counts }
    requires places { 2 * length factors.old.list + 1 ≤ commons.old.places }
    requires after { 0 < from }
    requires from { from ≤ length factors.old.list }
    requires room { 2 * length factors.old.list + 1 ≤ factors.old.room }
    requires first { (p : Point) → set_at factors.old 0 p ≡ true }
    requires var { var < length factors.old.contents.counts }
    requires some { HasCommon factors.old from [] }
    ensures keeps { Keeps factors.old factors.new (before (length factors.old.list)) }
    ensures long { OnOk result (length factors.new.list ≡ length factors.old.list) }
    ensures same { commons.new ≡ commons.old }
    ensures value { IfOk result (λ value. CanBe factors.old from var value) }
    ensures few { IfOk result (λ value. value < MAX_VALUES) }
    ensures full { IfErr result (HasNoRoom factors.new.contents) }
{
    let last = commons.last_value(var);
    for value in 0..last {
        match may_be(commons, factors, from, var, value) {
            Ok(true) => return Ok(value),
            Ok(false) => {}
            Err(stop) => return Err(stop),
        }
    }
    Ok(last)
}

/// Puts a set behind the list that leaves one value of a variable to the common points of the sets from a place on, of which there
/// are some. It answers the value.
fn fix_value(
    commons: &mut Commons,
    factors: &mut Factors,
    from: usize,
    var: u32,
) -> Result<u16, Nodes>
    requires counts { factors.old.contents.counts ≡ commons.old.counts }
    requires places { 2 * length factors.old.list + 1 ≤ commons.old.places }
    requires after { 0 < from }
    requires from { from ≤ length factors.old.list }
    requires room { 2 * length factors.old.list + 1 ≤ factors.old.room }
    requires first { (p : Point) → set_at factors.old 0 p ≡ true }
    requires var { var < length factors.old.contents.counts }
    requires some { HasCommon factors.old from [] }
    ensures keeps { Keeps factors.old factors.new (before (length factors.old.list)) }
    ensures same { commons.new ≡ commons.old }
    ensures fixed { IfOk result (λ value. IsFixed factors.old factors.new from var value) }
    ensures full { IfErr result (HasNoRoom factors.new.contents) }
{
    let value = match least_value(commons, factors, from, var) {
        Ok(value) => value,
        Err(stop) => return Err(stop),
    };
    let set = ValueSet::one(Value(value));
    match factors.add_cube(&[Literal { var, set }]) {
        Ok(()) => Ok(value),
        Err(stop) => Err(stop),
    }
}

/// Gives the values of the first variables at a common point of the sets from a place on, of which there are some. Place 0 has
/// the set of all points. There is room for the sets twice, and for two more for each value. There may be more sets behind
/// the list then.
pub fn give_values(
    commons: &mut Commons,
    factors: &mut Factors,
    from: usize,
    values: &mut [u16],
) -> Result<(), Nodes>
    requires counts { factors.old.contents.counts ≡ commons.old.counts }
    requires vars { length values.old ≤ length factors.old.contents.counts }
    requires places { 2 * (length factors.old.list + length values.old) + 1 ≤ commons.old.places }
    requires room { 2 * (length factors.old.list + length values.old) + 1 ≤ factors.old.room }
    requires after { 0 < from }
    requires from { from ≤ length factors.old.list }
    requires first { (p : Point) → set_at factors.old 0 p ≡ true }
    requires some { HasCommon factors.old from [] }
    ensures keeps { Keeps factors.old factors.new (before (length factors.old.list)) }
    ensures same { commons.new ≡ commons.old }
    ensures behind { OnOk result (length factors.old.list ≤ length factors.new.list) }
    ensures values { OnOk result (HasValues factors.old from values.new) }
    ensures full { IfErr result (HasNoRoom factors.new.contents) }
{
    commons.few();
    for place in 0..values.len() {
        match fix_value(commons, factors, from, place as u32) {
            Ok(value) => values[place] = value,
            Err(stop) => return Err(stop),
        }
    }
    Ok(())
}
