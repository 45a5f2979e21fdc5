ghost use Rattle.std.specs.Prelude.{◌≡◌, ◌+◌, ◌<◌, ◌≤◌, length, All, OnOk, IfErr};
ghost use Rattle.mv_diagram.specs.Diagrams.{HasNoRoom};
ghost use Rattle.mv_factors.specs.declared.inner.Inner.{Inner as an_inner};
ghost use Rattle.mv_factors.specs.Families.{Keeps, before};
ghost use Rattle.mv_factors.specs.Leaving.{is_inner};
ghost use Rattle.mv_wide.specs.Families.{AddsMissed, AreMissed, IsStaged, between};

use crate::families::{add_copies, meet_all};
use mv_diagram::Nodes;
use mv_factors::{Elimination, Factors, Inner};

/// Puts copies of the sets from place 1 on behind the list, so many and one left out, and then the complement of the set of
/// a place.
fn stage(factors: &mut Factors, tables: usize, left_out: usize, place: usize) -> Result<(), Nodes>
    requires place { place < length factors.old.list }
    requires tables { tables < length factors.old.list }
    requires room { length factors.old.list + tables + 1 ≤ factors.old.room }
    ensures keeps { Keeps factors.old factors.new (before (length factors.old.list)) }
    ensures front { length factors.old.list ≤ length factors.new.list }
    ensures staged { OnOk result (IsStaged factors.old factors.new tables left_out place) }
    ensures full { IfErr result (HasNoRoom factors.new.contents) }
{
    add_copies(factors, 1, tables, left_out);
    let last = factors.len();
    factors.add_copy(place);
    factors.complement(last)
}

/// Puts the set of the points behind the list that agree, outside these variables, with a point that isn't in the set of a
/// place and is in all sets from place 1 on, so many and one left out. Other sets may stand behind it.
fn add_missed(
    factors: &mut Factors,
    elimination: &mut Elimination,
    tables: usize,
    left_out: usize,
    place: usize,
    beside: &[Inner],
) -> Result<(), Nodes>
    requires place { place < length factors.old.list }
    requires tables { tables < length factors.old.list }
    requires room { length factors.old.list + tables + 1 ≤ factors.old.room }
    requires places { length factors.old.list + tables + 1 ≤ elimination.old.places }
    requires vars { length factors.old.contents.counts ≤ elimination.old.vars }
    requires beside { All (λ (i : an_inner). i.var < length factors.old.contents.counts)
        beside.now }
    ensures same { elimination.new ≡ elimination.old }
    ensures keeps { Keeps factors.old factors.new (before (length factors.old.list)) }
    ensures front { length factors.old.list ≤ length factors.new.list }
    ensures long { OnOk result (length factors.old.list < length factors.new.list) }
    ensures set { OnOk result (AreMissed factors.old factors.new tables left_out place
        (is_inner beside.now) (length factors.old.list)) }
    ensures full { IfErr result (HasNoRoom factors.new.contents) }
{
    let last = factors.len();
    match stage(factors, tables, left_out, place) {
        Ok(()) => {}
        Err(stop) => return Err(stop),
    }
    match elimination.eliminate(factors, last, beside) {
        Ok(()) => {}
        Err(stop) => return Err(stop),
    }
    meet_all(factors, last)
}

/// Puts the points into the first set that agree, outside these variables, with a point that isn't in the set of a place and
/// is in all sets from place 1 on, so many and one left out.
pub fn unite_missed(
    factors: &mut Factors,
    elimination: &mut Elimination,
    tables: usize,
    left_out: usize,
    place: usize,
    beside: &[Inner],
) -> Result<(), Nodes>
    requires place { place < length factors.old.list }
    requires tables { tables < length factors.old.list }
    requires room { length factors.old.list + tables + 1 ≤ factors.old.room }
    requires places { length factors.old.list + tables + 1 ≤ elimination.old.places }
    requires vars { length factors.old.contents.counts ≤ elimination.old.vars }
    requires beside { All (λ (i : an_inner). i.var < length factors.old.contents.counts)
        beside.now }
    ensures same { elimination.new ≡ elimination.old }
    ensures keeps { Keeps factors.old factors.new (between (length factors.old.list)) }
    ensures front { length factors.old.list ≤ length factors.new.list }
    ensures long { OnOk result (length factors.new.list ≡ length factors.old.list) }
    ensures set { OnOk result (AddsMissed factors.old factors.new tables left_out place
        (is_inner beside.now)) }
    ensures full { IfErr result (HasNoRoom factors.new.contents) }
{
    let last = factors.len();
    match add_missed(factors, elimination, tables, left_out, place, beside) {
        Ok(()) => {}
        Err(stop) => return Err(stop),
    }
    match factors.unite(0, last) {
        Ok(()) => {
            factors.cut(last);
            Ok(())
        }
        Err(stop) => Err(stop),
    }
}
