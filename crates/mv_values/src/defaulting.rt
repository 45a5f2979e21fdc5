//! One visit of `default`: a net's table stays, with a note why or without one, or it takes a default.
ghost use Rattle.std.specs.Prelude.{◌≡◌, None, Some, is_some, IfOk, IsTrue, OnOk, MatchBool};
ghost use Rattle.mv_cover.specs.declared.cover.Cover.{Cover};
ghost use Rattle.mv_default.specs.Taken.{IsDefaulted};
ghost use Rattle.mv_net.specs.Nets.{slot, table_in};
ghost use Rattle.mv_partial.specs.Partial.{ArePartial};
ghost use Rattle.mv_pass.specs.Courses.{Perhaps};
ghost use Rattle.mv_pass.specs.Passing.{Passes};
ghost use Rattle.mv_values.specs.Defaults.{CanDefault, Defaulting, NotesDefault};
ghost use Rattle.mv_visit.specs.Visits.{Treats};

use crate::Stop;
use mv_base::{Memory, NetId};
use mv_cover::Cover;
use mv_default::take_default;
use mv_entry::{Journal, Why};
use mv_net::Network;
use mv_partial::PartialNets;
use mv_rules::Terms;
use mv_visit::{has_table, lessen, note_why};
use std::alloc::Global;

/// Notes why the net's table stays.
fn note_reason<J: Journal>(
    alloc: Global,
    net: &Network,
    n: NetId,
    why: Why,
    terms: Terms,
    journal: &mut J,
) -> Result<(), Stop>
    requires table { IsTrue (is_some (table_in (slot net.now.nets n.0))) }
    requires notes { (table : Cover) → table_in (slot net.now.nets n.0) ≡ Some table
        → NotesDefault net.now n.0 table why }
    ensures { Passes terms.free (Treats Defaulting n.0)
        (Perhaps (Treats Defaulting n.0)) net.now net.now
        (J.state journal.old) (J.state journal.new) result }
{
    note_why(alloc, net, n, why, journal)
}

/// Whether the net's table has a default.
fn has_default(net: &Network, n: NetId) -> bool
    requires { IsTrue (is_some (table_in (slot net.now.nets n.0))) }
    ensures { (table : Cover) → table_in (slot net.now.nets n.0) ≡ Some table
        → MatchBool result (table.default ≡ None → ⊥) (table.default ≡ None) }
{
    table_of(net, n).default.is_some()
}

/// The net's table.
fn table_of(net: &Network, n: NetId) -> &Cover
    requires { IsTrue (is_some (table_in (slot net.now.nets n.0))) }
    ensures { table_in (slot net.now.nets n.0) ≡ Some result.now }
{
    net.table(n).unwrap()
}

/// The net's table with the default taken: None where no line has a literal.
fn defaulted(alloc: Global, net: &Network, n: NetId) -> Result<Option<Cover>, Memory>
    requires table { IsTrue (is_some (table_in (slot net.now.nets n.0))) }
    requires can { (table : Cover) → table_in (slot net.now.nets n.0) ≡ Some table
        → CanDefault net.now n.0 table }
    ensures { IfOk result (λ made. (table : Cover) → table_in (slot net.now.nets n.0) ≡ Some table
        → IsDefaulted table made) }
{
    net.well_formed();
    take_default(alloc, table_of(net, n), net.values(n))
}

/// Gives the net's table the default, where some line has a literal, or notes why it stays.
fn take<J: Journal>(
    alloc: Global,
    net: &mut Network,
    partial: &mut PartialNets,
    n: NetId,
    terms: Terms,
    journal: &mut J,
) -> Result<(), Stop>
    requires right { ArePartial net.old.nets partial.old }
    requires table { IsTrue (is_some (table_in (slot net.old.nets n.0))) }
    requires can { (table : Cover) → table_in (slot net.old.nets n.0) ≡ Some table
        → CanDefault net.old n.0 table }
    ensures right { OnOk result (ArePartial net.new.nets partial.new) }
    ensures passes { Passes terms.free (Treats Defaulting n.0)
        (Perhaps (Treats Defaulting n.0)) net.old net.new
        (J.state journal.old) (J.state journal.new) result }
{
    net.well_formed();
    let table = match defaulted(alloc, net, n) {
        Ok(Some(table)) => table,
        Ok(None) => return Ok(()),
        Err(_memory) => return Err(Stop::Memory),
    };
    if partial.is_below(net, n) {
        return note_reason(alloc, net, n, Why::Partial, terms, journal);
    }
    lessen(alloc, net, partial, n, &table, terms, journal)
}

/// Visits the net of this number: gives its table a default, if it has a table and that saves literals, or notes why it stays.
pub fn visit<J: Journal>(
    alloc: Global,
    net: &mut Network,
    partial: &mut PartialNets,
    n: NetId,
    terms: Terms,
    journal: &mut J,
) -> Result<(), Stop>
    requires { ArePartial net.old.nets partial.old }
    ensures right { OnOk result (ArePartial net.new.nets partial.new) }
    ensures passes { Passes terms.free (Treats Defaulting n.0)
        (Perhaps (Treats Defaulting n.0)) net.old net.new
        (J.state journal.old) (J.state journal.new) result }
{
    if !has_table(net, n) {
        return Ok(());
    }
    if has_default(net, n) {
        return Ok(());
    }
    if !net.is_plainly_deterministic(n) {
        return note_reason(alloc, net, n, Why::Varied, terms, journal);
    }
    match net.is_total(alloc, n) {
        Ok(true) => take(alloc, net, partial, n, terms, journal),
        Ok(false) => note_reason(alloc, net, n, Why::Partial, terms, journal),
        Err(_memory) => Err(Stop::Memory),
    }
}
