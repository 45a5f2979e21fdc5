//! One visit of `determinize`: a net's table stays, with a note why or without one, or it gives way to one that is plainly deterministic.
ghost use Rattle.std.specs.Prelude.{◌≡◌, Some, is_some, map, IfErr, IfOk, IsTrue, OnOk};
ghost use Rattle.mv_choose.specs.Choices.{Determinizing, IsVaried, NotesVaried};
ghost use Rattle.mv_cover.specs.declared.cover.Cover.{Cover};
ghost use Rattle.mv_determine.specs.Determined.{IsTooLong, determined_of};
ghost use Rattle.mv_net.specs.Nets.{slot, table_in, values_in};
ghost use Rattle.mv_partial.specs.Partial.{ArePartial};
ghost use Rattle.mv_pass.specs.Courses.{Perhaps};
ghost use Rattle.mv_pass.specs.Passing.{Passes};
ghost use Rattle.mv_visit.specs.Visits.{Treats};

use crate::Stop;
use mv_base::NetId;
use mv_cover::{Cover, CoverStop};
use mv_determine::determined;
use mv_entry::{Journal, Why};
use mv_net::Network;
use mv_partial::PartialNets;
use mv_rules::Terms;
use mv_visit::{has_table, lessen, note_why};
use std::alloc::Global;

/// Notes why the net's table stays.
fn note_reason<J: Journal>(
    alloc: Global,
    net: &Network,
    n: NetId,
    why: Why,
    terms: Terms,
    journal: &mut J,
) -> Result<(), Stop>
    requires table { IsTrue (is_some (table_in (slot net.now.nets n.0))) }
    requires notes { (table : Cover) → table_in (slot net.now.nets n.0) ≡ Some table
        → NotesVaried net.now n.0 table why }
    ensures { Passes terms.free (Treats Determinizing n.0)
        (Perhaps (Treats Determinizing n.0)) net.now net.now
        (J.state journal.old) (J.state journal.new) result }
{
    note_why(alloc, net, n, why, journal)
}

/// What the net's table is made into, or Wide where too many lines come of it.
fn determined_table(alloc: Global, net: &Network, n: NetId) -> Result<Cover, CoverStop>
    requires { IsTrue (is_some (table_in (slot net.now.nets n.0))) }
    ensures made { IfOk result
        (λ made. (table : Cover) → table_in (slot net.now.nets n.0) ≡ Some table
        → made ≡ determined_of (map values_in net.now.nets) table) }
    ensures short { IfOk result
        (λ _. (table : Cover) → table_in (slot net.now.nets n.0) ≡ Some table
        → IsTooLong (map values_in net.now.nets) table → ⊥) }
    ensures long { IfErr result
        (λ stop. stop ≡ CoverStop.Wide → (table : Cover)
        → table_in (slot net.now.nets n.0) ≡ Some table
        → IsTooLong (map values_in net.now.nets) table) }
{
    net.well_formed();
    determined(alloc, net.table(n).unwrap(), net.values(n), net.counts())
}

/// Gives the net the table that its own is made into, or notes why it stays.
fn take<J: Journal>(
    alloc: Global,
    net: &mut Network,
    partial: &mut PartialNets,
    n: NetId,
    terms: Terms,
    journal: &mut J,
) -> Result<(), Stop>
    requires right { ArePartial net.old.nets partial.old }
    requires table { IsTrue (is_some (table_in (slot net.old.nets n.0))) }
    requires varied { (table : Cover) → table_in (slot net.old.nets n.0) ≡ Some table
        → IsVaried net.old n.0 table }
    ensures right { OnOk result (ArePartial net.new.nets partial.new) }
    ensures passes { Passes terms.free (Treats Determinizing n.0)
        (Perhaps (Treats Determinizing n.0)) net.old net.new
        (J.state journal.old) (J.state journal.new) result }
{
    net.well_formed();
    let table = match determined_table(alloc, net, n) {
        Ok(table) => table,
        Err(CoverStop::Wide) => return note_reason(alloc, net, n, Why::Lines, terms, journal),
        Err(CoverStop::Memory) => return Err(Stop::Memory),
    };
    lessen(alloc, net, partial, n, &table, terms, journal)
}

/// Visits the net of this number: where it has a table that isn't plainly deterministic, gives it one that is, or notes why it stays.
pub fn visit<J: Journal>(
    alloc: Global,
    net: &mut Network,
    partial: &mut PartialNets,
    n: NetId,
    terms: Terms,
    journal: &mut J,
) -> Result<(), Stop>
    requires { ArePartial net.old.nets partial.old }
    ensures right { OnOk result (ArePartial net.new.nets partial.new) }
    ensures passes { Passes terms.free (Treats Determinizing n.0)
        (Perhaps (Treats Determinizing n.0)) net.old net.new
        (J.state journal.old) (J.state journal.new) result }
{
    if !has_table(net, n) {
        return Ok(());
    }
    if net.is_plainly_deterministic(n) {
        return Ok(());
    }
    if partial.is_below(net, n) {
        return note_reason(alloc, net, n, Why::Partial, terms, journal);
    }
    take(alloc, net, partial, n, terms, journal)
}
