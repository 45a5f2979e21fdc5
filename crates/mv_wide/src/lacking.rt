ghost use Rattle.std.specs.Prelude.{◌≡◌, ◌+◌, ◌*◌, ◌<◌, ◌≤◌, length, All, OnOk, IfErr};
ghost use Rattle.mv_diagram.specs.Diagrams.{HasNoRoom};
ghost use Rattle.mv_factors.specs.declared.inner.Inner.{Inner as an_inner};
ghost use Rattle.mv_factors.specs.Families.{Keeps};
ghost use Rattle.mv_factors.specs.Leaving.{is_inner};
ghost use Rattle.mv_wide.specs.Families.{AddsLacking, AddsMissedIn, between};

use crate::families::add_copies;
use crate::missed::unite_missed;
use mv_diagram::Nodes;
use mv_factors::{Elimination, Factors, Inner};

/// Puts the points into the first set that agree, outside these variables, with a point that isn't in one of the sets from a
/// place on and is in all sets from place 1 on, so many and one left out.
fn unite_each(
    factors: &mut Factors,
    elimination: &mut Elimination,
    tables: usize,
    left_out: usize,
    from: usize,
    beside: &[Inner],
) -> Result<(), Nodes>
    requires some { 0 < from }
    requires from { from ≤ length factors.old.list }
    requires tables { tables < length factors.old.list }
    requires room { length factors.old.list + tables + 1 ≤ factors.old.room }
    requires places { length factors.old.list + tables + 1 ≤ elimination.old.places }
    requires vars { length factors.old.contents.counts ≤ elimination.old.vars }
    requires beside { All (λ (i : an_inner). i.var < length factors.old.contents.counts)
        beside.now }
    ensures same { elimination.new ≡ elimination.old }
    ensures keeps { Keeps factors.old factors.new (between (length factors.old.list)) }
    ensures front { length factors.old.list ≤ length factors.new.list }
    ensures set { OnOk result (AddsMissedIn factors.old factors.new tables left_out from
        (length factors.old.list) (is_inner beside.now)) }
    ensures full { IfErr result (HasNoRoom factors.new.contents) }
{
    let last = factors.len();
    for place in from..last {
        match unite_missed(factors, elimination, tables, left_out, place, beside) {
            Ok(()) => {}
            Err(stop) => return Err(stop),
        }
    }
    Ok(())
}

/// Puts the points into the first set that agree, outside the variables `beside`, with a point that is in all other sets,
/// one left out, though none that agrees with it outside the variables `hidden` is in all of them. The other sets stay, and
/// more may stand behind them. There is room for twice as many and one more.
pub fn unite_lacking(
    factors: &mut Factors,
    elimination: &mut Elimination,
    tables: usize,
    left_out: usize,
    hidden: &[Inner],
    beside: &[Inner],
) -> Result<(), Nodes>
    requires tables { length factors.old.list ≡ tables + 1 }
    requires room { 3 * tables + 2 ≤ factors.old.room }
    requires places { 3 * tables + 2 ≤ elimination.old.places }
    requires vars { length factors.old.contents.counts ≤ elimination.old.vars }
    requires hidden { All (λ (i : an_inner). i.var < length factors.old.contents.counts)
        hidden.now }
    requires beside { All (λ (i : an_inner). i.var < length factors.old.contents.counts)
        beside.now }
    ensures same { elimination.new ≡ elimination.old }
    ensures keeps { Keeps factors.old factors.new (between (tables + 1)) }
    ensures front { length factors.old.list ≤ length factors.new.list }
    ensures set { OnOk result (AddsLacking factors.old factors.new tables left_out
        (is_inner hidden.now) (is_inner beside.now)) }
    ensures full { IfErr result (HasNoRoom factors.new.contents) }
{
    let first = factors.len();
    add_copies(factors, 1, tables, 0);
    match elimination.eliminate(factors, first, hidden) {
        Ok(()) => {}
        Err(stop) => return Err(stop),
    }
    unite_each(factors, elimination, tables, left_out, first, beside)
}
