//! One visit: a net's table stays, with a note why, or is made tight.
ghost use Rattle.std.specs.Prelude.{◌≡◌, Bool, true, List, is_some, IfOk, OnOk, IsTrue};
ghost use Rattle.mv_entry.specs.declared.rule.Rule.TheVariants.{Narrow};
ghost use Rattle.mv_meaning.specs.Narrowing.{AreTotalBelow};
ghost use Rattle.mv_net.specs.Nets.{slot, name_in, table_in};
ghost use Rattle.mv_net.specs.Total.{IsTotalNet};
ghost use Rattle.mv_partial.specs.Partial.{ArePartial};
ghost use Rattle.mv_pass.specs.Courses.{Perhaps};
ghost use Rattle.mv_pass.specs.Passing.{Passes};
ghost use Rattle.mv_rule_body.specs.Named.{AreHeld, body_of as body_named};
ghost use Rattle.mv_simplify.specs.Simplifies.{KeepsFor, rule_of};
ghost use Rattle.mv_simplify.specs.Simplifying.{IsToTake, IsWithin, KeepsBy, Visit};

use crate::Stop;
use crate::asked::Asked;
use mv_base::{Memory, Name, NetId};
use mv_cover::Cover;
use mv_entry::{Journal, Note, Rule, Why};
use mv_flex::{FlexStop, Flexibility, flex};
use mv_net::Network;
use mv_partial::{PartialNets, partial_nets};
use mv_pass::take_with;
use mv_rule_body::body_of;
use mv_tight::make_tight;
use std::alloc::Global;

/// Whether the net of this number has a table.
fn has_table(net: &Network, n: NetId) -> bool
    ensures { result ≡ is_some (table_in (slot net.now.nets n.0)) }
{
    net.holds(n) && net.table(n).is_some()
}

/// Notes why the net's table stays.
fn note_reason<J: Journal>(
    alloc: Global,
    net: &Network,
    n: NetId,
    why: Why,
    asked: Asked,
    journal: &mut J,
) -> Result<(), Stop>
    requires table { IsTrue (is_some (table_in (slot net.now.nets n.0))) }
    requires keeps { KeepsFor asked.terms.budget asked.down asked.up net.now n.0 why }
    ensures { Passes asked.terms.free (Visit asked n.0) (Perhaps (Visit asked n.0)) net.now net.now
        (J.state journal.old) (J.state journal.new) result }
{
    net.well_formed();
    let name = match Name::new(alloc, net.name(n)) {
        Ok(name) => name,
        Err(_memory) => return Err(Stop::Memory),
    };
    match journal.note(&Note::Dropped(why, name)) {
        Ok(()) => Ok(()),
        Err(_failed) => Err(Stop::Note),
    }
}

/// Notes why the net's table stays: there is no flexibility, or it told nothing.
fn note_stop<J: Journal>(
    alloc: Global,
    net: &Network,
    n: NetId,
    stop: FlexStop,
    asked: Asked,
    journal: &mut J,
) -> Result<(), Stop>
    requires table { IsTrue (is_some (table_in (slot net.now.nets n.0))) }
    requires keeps { KeepsBy asked net.now n.0 stop }
    ensures { Passes asked.terms.free (Visit asked n.0) (Perhaps (Visit asked n.0)) net.now net.now
        (J.state journal.old) (J.state journal.new) result }
{
    match stop {
        FlexStop::Window { levels: _ } => {
            note_reason(alloc, net, n, Why::Window, asked, journal)
        }
        FlexStop::Nodes { cap: _ } => note_reason(alloc, net, n, Why::Nodes, asked, journal),
        FlexStop::Memory => Err(Stop::Memory),
    }
}

/// The rule by which the net gets the table.
fn rule_for(
    alloc: Global,
    net: &Network,
    n: NetId,
    table: &Cover,
    asked: Asked,
) -> Result<Rule, Memory>
    requires tabled { IsTrue (is_some (table_in (slot net.now.nets n.0))) }
    requires held { AreHeld net.now.nets table.now }
    ensures { IfOk result (λ rule. rule ≡ rule_of net.now n.0 asked.down asked.up
        (body_named net.now.nets table.now)) }
{
    let name = Name::new(alloc, net.name(n))?;
    let body = body_of(alloc, net, table)?;
    Ok(Rule::Narrow {
        net: name,
        d: asked.down as u16,
        u: asked.up as u16,
        body,
    })
}

/// Gives the net the table, and notes the rule.
fn narrow_one<J: Journal>(
    alloc: Global,
    net: &mut Network,
    n: NetId,
    table: &Cover,
    flexibility: &Flexibility,
    asked: Asked,
    journal: &mut J,
) -> Result<(), Stop>
    requires within { IsWithin asked }
    requires new { IsToTake asked net.old n.0 table.now flexibility.now }
    ensures keeps { OnOk result
        (IsTotalNet net.old.nets n.0 → (marks : List Bool) → ArePartial net.old.nets marks
        → ArePartial net.new.nets marks) }
    ensures passes { Passes asked.terms.free (Visit asked n.0) (Perhaps (Visit asked n.0))
        net.old net.new (J.state journal.old) (J.state journal.new) result }
{
    net.well_formed();
    let rule = match rule_for(alloc, net, n, table, asked) {
        Ok(rule) => rule,
        Err(_memory) => return Err(Stop::Memory),
    };
    match take_with(alloc, net, &rule, asked.terms, flexibility, journal) {
        Ok(()) => Ok(()),
        Err(stop) => Err(stop),
    }
}

/// Gives the net the table, and notes the rule. From which nets on some table isn't total is told anew where the old table wasn't
/// total: only then may the new one leave other such nets.
fn narrow<J: Journal>(
    alloc: Global,
    net: &mut Network,
    partial: &mut PartialNets,
    n: NetId,
    table: &Cover,
    flexibility: &Flexibility,
    asked: Asked,
    journal: &mut J,
) -> Result<(), Stop>
    requires within { IsWithin asked }
    requires right { ArePartial net.old.nets partial.old }
    requires new { IsToTake asked net.old n.0 table.now flexibility.now }
    ensures right { OnOk result (ArePartial net.new.nets partial.new) }
    ensures passes { Passes asked.terms.free (Visit asked n.0) (Perhaps (Visit asked n.0))
        net.old net.new (J.state journal.old) (J.state journal.new) result }
{
    let was_partial = partial.has(n);
    match narrow_one(alloc, net, n, table, flexibility, asked, journal) {
        Ok(()) => {}
        Err(stop) => return Err(stop),
    }
    if !was_partial {
        return Ok(());
    }
    match partial_nets(alloc, net) {
        Ok(made) => *partial = made,
        Err(_memory) => return Err(Stop::Memory),
    }
    Ok(())
}

/// Makes the net's table tight in its window, or notes why it stays. All tables below are total.
fn tighten<J: Journal>(
    alloc: Global,
    net: &mut Network,
    partial: &mut PartialNets,
    n: NetId,
    asked: Asked,
    journal: &mut J,
) -> Result<(), Stop>
    requires within { IsWithin asked }
    requires right { ArePartial net.old.nets partial.old }
    requires table { IsTrue (is_some (table_in (slot net.old.nets n.0))) }
    requires below { AreTotalBelow net.old.nets n.0 }
    ensures right { OnOk result (ArePartial net.new.nets partial.new) }
    ensures passes { Passes asked.terms.free (Visit asked n.0) (Perhaps (Visit asked n.0))
        net.old net.new (J.state journal.old) (J.state journal.new) result }
{
    let window = match net.window(n, asked.down, asked.up) {
        Ok(window) => window,
        Err(_memory) => return Err(Stop::Memory),
    };
    let flexibility = match flex(net, &window, n, asked.terms.budget) {
        Ok(flexibility) => flexibility,
        Err(stop) => return note_stop(alloc, net, n, stop, asked, journal),
    };
    match make_tight(alloc, net, n, &flexibility) {
        Ok(None) => Ok(()),
        Ok(Some(table)) => narrow(alloc, net, partial, n, &table, &flexibility, asked, journal),
        Err(stop) => note_stop(alloc, net, n, stop, asked, journal),
    }
}

/// Visits the net of this number: makes its table tight, if it has one, or notes why it stays.
pub fn visit<J: Journal>(
    alloc: Global,
    net: &mut Network,
    partial: &mut PartialNets,
    n: NetId,
    asked: Asked,
    journal: &mut J,
) -> Result<(), Stop>
    requires within { IsWithin asked }
    requires right { ArePartial net.old.nets partial.old }
    ensures right { OnOk result (ArePartial net.new.nets partial.new) }
    ensures passes { Passes asked.terms.free (Visit asked n.0) (Perhaps (Visit asked n.0))
        net.old net.new (J.state journal.old) (J.state journal.new) result }
{
    if !has_table(net, n) {
        return Ok(());
    }
    net.well_formed();
    if partial.is_below(net, n) {
        return note_reason(alloc, net, n, Why::Partial, asked, journal);
    }
    tighten(alloc, net, partial, n, asked, journal)
}
