ghost use Rattle.std.specs.Prelude.{◌≡◌, ◌<◌, All, IfOk, MatchOption, Some, length};
ghost use Rattle.mv_base.specs.Meaning.{SameMeaning};
ghost use Rattle.std.specs.List.{list_all};
ghost use Rattle.mv_cover.specs.Literal.{Lit};
ghost use Rattle.mv_cover.specs.declared.line.Line.{Line};
ghost use Rattle.mv_graph.specs.Nets.{has_id};
ghost use Rattle.mv_divide.specs.Grouped.{AreBelow};
ghost use Rattle.mv_divide.specs.Tables.{IsDivided, IsUndivided};
ghost use Rattle.mv_division.specs.Divided.{IsDivision, divide_rule};
ghost use Rattle.mv_extract.specs.Dividing.{IsDivideRule, IsReady};
ghost use Rattle.mv_extract.specs.Steps.{DividesNet};
ghost use Rattle.mv_gains.specs.Gains.{lines_at};
ghost use Rattle.mv_net.specs.Allowed.{of_net};
ghost use Rattle.mv_net.specs.Nets.{slot, table_in};
ghost use Rattle.mv_pass.specs.Courses.{Perhaps, VisitsAll, VisitsSome};
ghost use Rattle.mv_pass.specs.Passing.{Passes};

use crate::Stop;
use mv_base::{Items, Memory, Name, NetId};
use mv_cover::{Cover, Cube, Line, Lit};
use mv_divide::{divide, parts};
use mv_division::divide_law;
use mv_entry::{Journal, Rule};
use mv_net::Network;
use mv_pass::take;
use mv_rule_body::{body_laws, body_of};
use mv_rules::Terms;
use std::alloc::Global;

/// The lines of the table, divided by the divisor for which the net d stands, or None where no cover has a quotient.
fn divided_lines(
    alloc: Global,
    lines: &[Line],
    divisor: &[Cube],
    d: NetId,
) -> Result<Option<Vec<Line>>, Memory>
    requires some { 0 < length divisor.now }
    requires below { All (λ (l : Line). AreBelow d l.cube) lines.now }
    ensures { IfOk result (λ found. MatchOption found
        (IsUndivided lines.now divisor.now)
        (λ new. IsDivided lines.now divisor.now d new.items)) }
{
    let parts = parts(alloc, lines)?;
    divide(alloc, lines, parts.as_slice(), divisor, d)
}

/// The rule by which the net gets the divided lines, with its own default.
fn rule_with(
    alloc: Global,
    net: &Network,
    divisor: &[Cube],
    n: NetId,
    d: NetId,
    table: &Cover,
    lines: Vec<Line>,
) -> Result<Rule, Memory>
    requires table { table_in (slot net.now.nets n.0) ≡ Some table.now }
    requires ready { IsReady net.now.nets divisor.now d n.0 }
    requires other { n.0 ≡ d.0 → ⊥ }
    requires divided { IsDivided table.now.lines divisor.now d lines.items }
    ensures { IfOk result (λ rule. IsDivideRule net.now.nets divisor.now n d rule) }
{
    net.well_formed();
    divide_law();
    body_laws();
    let cover = Cover {
        lines: Items::of(lines),
        default: table.copied_default()?,
    };
    let body = body_of(alloc, net, &cover)?;
    Ok(Rule::Divide {
        net: Name::new(alloc, net.name(n))?,
        by: Name::new(alloc, net.name(d))?,
        body,
    })
}

/// Whether each of the literals is on one of these nets.
fn reads_each(fanins: &[NetId], literals: &[Lit]) -> bool
    ensures { result ≡ list_all (λ (l : Lit). has_id fanins.now l.net.0) literals.now }
{
    literals.iter().all(|literal| reads(fanins, literal.net()))
}

/// Whether the net is one of these.
fn reads(fanins: &[NetId], net: NetId) -> bool
    ensures { result ≡ has_id fanins.now net.0 }
{
    fanins.iter().any(|fanin| fanin.0 == net.0)
}

/// The rule by which the net's table is divided, or None where no cover of it has a quotient.
fn rule_for(
    alloc: Global,
    net: &Network,
    divisor: &[Cube],
    n: NetId,
    d: NetId,
) -> Result<Option<Rule>, Memory>
    requires ready { IsReady net.now.nets divisor.now d n.0 }
    requires other { n.0 ≡ d.0 → ⊥ }
    ensures { IfOk result (λ found. MatchOption found
        (IsUndivided (lines_at (slot net.now.nets n.0)) divisor.now)
        (IsDivideRule net.now.nets divisor.now n d)) }
{
    net.well_formed();
    divide_law();
    if !net.holds(n) {
        return Ok(None);
    }
    let Some(table) = net.table(n) else {
        return Ok(None);
    };
    if !reads_each(net.fanins(n), divisor[0].lits()) {
        return Ok(None);
    }
    match divided_lines(alloc, table.lines.as_slice(), divisor, d)? {
        Some(lines) => Ok(Some(rule_with(alloc, net, divisor, n, d, table, lines)?)),
        None => Ok(None),
    }
}

/// Divides the table of the net by the net d, which stands for the divisor, and notes the rule.
fn divide_net<J: Journal>(
    alloc: Global,
    net: &mut Network,
    divisor: &[Cube],
    n: NetId,
    d: NetId,
    terms: Terms,
    journal: &mut J,
) -> Result<(), Stop>
    requires ready { IsReady net.old.nets divisor.now d n.0 }
    requires other { n.0 ≡ d.0 → ⊥ }
    ensures passes { Passes terms.free (DividesNet terms.free divisor.now d n.0)
        (Perhaps (DividesNet terms.free divisor.now d n.0))
        net.old net.new (J.state journal.old) (J.state journal.new) result }
    ensures means { SameMeaning (of_net net.new) (of_net net.old) }
{
    net.well_formed();
    divide_law();
    let rule = match rule_for(alloc, net, divisor, n, d) {
        Ok(Some(rule)) => rule,
        Ok(None) => return Ok(()),
        Err(_memory) => return Err(Stop::Memory),
    };
    match take(alloc, net, &rule, terms, journal) {
        Ok(()) => Ok(()),
        Err(stop) => Err(stop),
    }
}

/// Visits the net of this number: divides its table, unless it is the net d itself.
fn visit<J: Journal>(
    alloc: Global,
    net: &mut Network,
    divisor: &[Cube],
    n: NetId,
    d: NetId,
    terms: Terms,
    journal: &mut J,
) -> Result<(), Stop>
    requires { IsReady net.old.nets divisor.now d n.0 }
    ensures passes { Passes terms.free (DividesNet terms.free divisor.now d n.0)
        (Perhaps (DividesNet terms.free divisor.now d n.0))
        net.old net.new (J.state journal.old) (J.state journal.new) result }
    ensures means { SameMeaning (of_net net.new) (of_net net.old) }
{
    if n.0 == d.0 {
        return Ok(());
    }
    divide_net(alloc, net, divisor, n, d, terms, journal)
}

/// Divides each other table by the net d, which stands for the divisor, ascending.
pub fn divide_each<J: Journal>(
    alloc: Global,
    net: &mut Network,
    divisor: &[Cube],
    d: NetId,
    terms: Terms,
    journal: &mut J,
) -> Result<(), Stop>
    requires { IsReady net.old.nets divisor.now d 0 }
    ensures passes { Passes terms.free (VisitsAll (DividesNet terms.free divisor.now d))
        (VisitsSome (DividesNet terms.free divisor.now d))
        net.old net.new (J.state journal.old) (J.state journal.new) result }
    ensures means { SameMeaning (of_net net.new) (of_net net.old) }
{
    net.well_formed();
    for number in 0..net.next_number() {
        net.well_formed();
        match visit(alloc, net, divisor, NetId(number), d, terms, journal) {
            Ok(()) => {}
            Err(stop) => return Err(stop),
        }
    }
    Ok(())
}
