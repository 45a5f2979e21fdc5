ghost use Rattle.std.specs.Prelude.{OnOk};
ghost use Rattle.mv_meaning.specs.Narrowing.{AreTotalBelow};
ghost use Rattle.mv_net.specs.Total.{IsTotalNet};
ghost use Rattle.mv_partial.specs.Partial.{ArePartial};
ghost use Rattle.mv_pass.specs.Courses.{Perhaps};
ghost use Rattle.mv_pass.specs.Passing.{Passes};
ghost use Rattle.mv_visit.specs.Lessening.{IsToTake};
ghost use Rattle.mv_visit.specs.Visits.{IsLesser, Lessens, MayLessen};

use crate::visit::{narrowing, note_why};
use mv_base::NetId;
use mv_cover::Cover;
use mv_entry::{Journal, Why};
use mv_narrow::is_too_wide;
use mv_net::Network;
use mv_partial::{PartialNets, partial_nets};
use mv_pass::{Stop, take_within};
use mv_rules::Terms;
use std::alloc::Global;

/// Gives the net the table, and notes the rule.
fn give<J: Journal>(
    alloc: Global,
    net: &mut Network,
    partial: &PartialNets,
    n: NetId,
    table: &Cover,
    terms: Terms,
    journal: &mut J,
) -> Result<(), Stop>
    requires right { ArePartial net.old.nets partial.now }
    requires new { IsToTake net.old n.0 table.now }
    ensures right { OnOk result
        (IsTotalNet net.old.nets n.0 → ArePartial net.new.nets partial.now) }
    ensures passes { Passes terms.free (Lessens n.0 table.now)
        (Perhaps (Lessens n.0 table.now)) net.old net.new
        (J.state journal.old) (J.state journal.new) result }
{
    net.well_formed();
    let rule = match narrowing(alloc, net, n, 0, 0, table) {
        Ok(rule) => rule,
        Err(_memory) => return Err(Stop::Memory),
    };
    match take_within(alloc, net, &rule, terms, partial, journal) {
        Ok(()) => Ok(()),
        Err(stop) => Err(stop),
    }
}

/// Gives the net the table, and notes the rule. From which nets on some table isn't total is told anew where the old table wasn't
/// total: only then may the new one, which may read fewer nets, leave other such nets.
fn give_and_tell<J: Journal>(
    alloc: Global,
    net: &mut Network,
    partial: &mut PartialNets,
    n: NetId,
    table: &Cover,
    terms: Terms,
    journal: &mut J,
) -> Result<(), Stop>
    requires right { ArePartial net.old.nets partial.old }
    requires new { IsToTake net.old n.0 table.now }
    ensures right { OnOk result (ArePartial net.new.nets partial.new) }
    ensures passes { Passes terms.free (Lessens n.0 table.now)
        (Perhaps (Lessens n.0 table.now)) net.old net.new
        (J.state journal.old) (J.state journal.new) result }
{
    let was_partial = partial.has(n);
    match give(alloc, net, partial, n, table, terms, journal) {
        Ok(()) => {}
        Err(stop) => return Err(stop),
    }
    if !was_partial {
        return Ok(());
    }
    match partial_nets(alloc, net) {
        Ok(made) => *partial = made,
        Err(_memory) => return Err(Stop::Memory),
    }
    Ok(())
}

/// Gives the net the table, which allows less than its own, in the window of the net alone; or notes that this window is too wide.
/// All tables below the net are total. It asks for no flexibility.
pub fn lessen<J: Journal>(
    alloc: Global,
    net: &mut Network,
    partial: &mut PartialNets,
    n: NetId,
    table: &Cover,
    terms: Terms,
    journal: &mut J,
) -> Result<(), Stop>
    requires right { ArePartial net.old.nets partial.old }
    requires below { AreTotalBelow net.old.nets n.0 }
    requires lesser { IsLesser net.old.nets n.0 table.now }
    ensures right { OnOk result (ArePartial net.new.nets partial.new) }
    ensures passes { Passes terms.free (MayLessen n.0 table.now)
        (Perhaps (MayLessen n.0 table.now)) net.old net.new
        (J.state journal.old) (J.state journal.new) result }
{
    net.well_formed();
    let window = match net.window(n, 0, 0) {
        Ok(window) => window,
        Err(_memory) => return Err(Stop::Memory),
    };
    if is_too_wide(net, &window) {
        return note_why(alloc, net, n, Why::Window, journal);
    }
    give_and_tell(alloc, net, partial, n, table, terms, journal)
}
